// Receipts: the positions of a name.
ghost use Rattle.std.specs.Prelude.{◌≡◌, ◌<◌, take, slice_index};
ghost use Rattle.filter.specs.Positions.{positions, names};

use crate::size::FilterSize;
use digest::Digest;

// The positions of one name, in the order of its digest's words; one may stand twice.
#[derive(Clone, Copy, PartialEq, Eq, Debug)]
pub struct Receipt {
    pub(crate) positions: [u32; 4],
}

impl Receipt {
    // The receipt of a name in a filter of a size.
    pub fn of<D: Digest>(digest: &D, size: FilterSize, name: &[u8]) -> Receipt
        ensures { result.positions ≡ positions size.positions (D.Digest.words name.now) }
    {
        let words = digest.words(name);
        let m = size.positions;
        Receipt {
            positions: [words[0] % m, words[1] % m, words[2] % m, words[3] % m],
        }
    }

    // The positions.
    pub fn positions(&self) -> [u32; 4]
        ensures { result ≡ self.now.positions }
    {
        self.positions
    }

    // Whether the position at a place stands before it too.
    pub(crate) fn repeats(&self, place: usize) -> bool
        requires { place < 4 }
        ensures { result ≡ names (take place self.now.positions) (slice_index self.now.positions place) }
    {
        let before = &self.positions[..place];
        before.contains(&self.positions[place])
    }
}
