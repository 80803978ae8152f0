// What a store refuses.
ghost use Rattle.store.specs.Faults.{store_fault};

use fault::{Fault, Layer, Refusal};

// Why a call of a store was refused, by the number under which it is reported.
#[derive(Clone, Copy, PartialEq, Eq, Debug)]
pub enum StoreFault {
    // beginning: the number of places is not 1 to 1,024
    Places = 1,
    // beginning: lent memory has another length
    Length = 3,
    // there is no row at the place
    NoRow = 7,
    // no place is free, the record is bad or its name is held
    NotAdded = 11,
}

impl Refusal for StoreFault {
    ghost carries = { store_fault };

    fn fault(&self) -> Fault {
        Fault {
            number: *self as u8,
            layer: Layer::Store,
            house: 0,
            version: 0,
        }
    }
}
