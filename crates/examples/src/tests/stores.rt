// Stores on examples.
use fault::Refusal;
use std::process::Abort;
use std::test::Fail;
use store::{CELLS, Cell, HashedIndex, Record, Row, Store, StoreFault, Table};

// Two names at whose cell the search of the index starts for both.
const ATLAS: &[u8] = b"Atlas of the northern harbours, 1784";

const SHEETS: &[u8] = b"5603 sheets of the estate map";

fn record(name: &[u8], size: u32, cost: u16) -> Record<'_> {
    Record { name, size, cost }
}

// What every store of two places does.
fn two_places<S: Store>(rt: &impl Abort, store: &mut S) -> Result<(), Fail> {
    let mut row = Row::free();
    assert_eq!(rt; store.len(), 2);
    assert_eq!(rt; store.find(ATLAS), None);
    assert_eq!(rt; store.add(record(b"", 1, 1)), Err(StoreFault::NotAdded));
    assert_eq!(rt; store.add(record(b"a\0b", 1, 1)), Err(StoreFault::NotAdded));
    assert_eq!(rt;
        store.add(record(&[65; 129], 1, 1)),
        Err(StoreFault::NotAdded)
    );
    assert_eq!(rt; store.add(record(ATLAS, 0, 1)), Err(StoreFault::NotAdded));
    assert_eq!(rt;
        store.add(record(ATLAS, 16777217, 1)),
        Err(StoreFault::NotAdded)
    );
    assert_eq!(rt; store.add(record(ATLAS, 1, 0)), Err(StoreFault::NotAdded));
    assert_eq!(rt; store.add(record(ATLAS, 16777216, 65535)), Ok(0));
    assert_eq!(rt; store.add(record(ATLAS, 1, 1)), Err(StoreFault::NotAdded));
    assert_eq!(rt; store.add(record(SHEETS, 7, 9)), Ok(1));
    assert_eq!(rt; store.add(record(b"full", 1, 1)), Err(StoreFault::NotAdded));
    assert_eq!(rt; store.find(SHEETS), Some(1));
    assert_eq!(rt; store.read(1, &mut row), Ok(()));
    assert_eq!(rt; row.name(), SHEETS);
    assert_eq!(rt; (row.size(), row.cost()), (7, 9));
    assert!(rt; store.row(0).is_some());
    assert_eq!(rt; store.free_place(), None);
    assert_eq!(rt; store.remove(0), Ok(()));
    assert_eq!(rt; store.remove(0), Err(StoreFault::NoRow));
    assert_eq!(rt; store.read(2, &mut row), Err(StoreFault::NoRow));
    assert_eq!(rt; store.find(ATLAS), None);
    assert_eq!(rt; store.find(SHEETS), Some(1));
    assert!(rt; store.row(0).is_none());
    assert_eq!(rt; store.free_place(), Some(0));
    assert_eq!(rt; store.place_for(record(ATLAS, 1, 1)), Some(0));
    assert_eq!(rt; store.place_for(record(SHEETS, 1, 1)), None);
    Ok(())
}

#[test]
fn table_of_two(rt: HostRuntime) -> Result<(), Fail> {
    let mut rows = [Row::free(); 2];
    match Table::new(2, &mut rows) {
        Ok(mut table) => two_places(&rt, &mut table),
        Err(_) => Err(Fail::new("refused")),
    }
}

#[test]
fn index_of_two(rt: HostRuntime) -> Result<(), Fail> {
    let mut rows = [Row::free(); 2];
    let mut cells = vec![in rt.alloc(); Cell::Never; CELLS]?;
    match HashedIndex::new(2, &mut rows, cells.as_mut_slice()) {
        Ok(mut index) => {
            two_places(&rt, &mut index)?;
            assert_eq!(rt; index.search(SHEETS).looked, 2, "past the freed cell");
            assert_eq!(rt; index.search(b"absent").looked, 1);
            Ok(())
        }
        Err(_) => Err(Fail::new("refused")),
    }
}

#[test]
fn refused_beginnings(rt: HostRuntime) -> Result<(), Fail> {
    let mut rows = [Row::free(); 2];
    let Err((none, rows)) = Table::new(0, &mut rows) else {
        return Err(Fail::new("no places"));
    };
    let Err((other, _)) = Table::new(3, rows) else {
        return Err(Fail::new("rows of another number"));
    };
    assert_eq!(rt; (none.fault().number, other.fault().number), (1, 3));
    Ok(())
}
