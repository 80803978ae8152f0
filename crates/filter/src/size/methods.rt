// Sizes made and read.
ghost use Rattle.std.specs.Prelude.{◌≡◌, ◌/◌, ◌%◌, MatchOption};
ghost use Rattle.filter.specs.Positions.{Sized};

use super::FilterSize;

impl FilterSize {
    // The size of so many positions, or none where a filter may not have them.
    pub fn new(positions: u32) -> Option<FilterSize>
        ensures { MatchOption result (Sized positions → ⊥) (λ s. Sized positions × (s.positions ≡ positions)) }
    {
        if (64..=65536).contains(&positions) && positions % 8 == 0 {
            Some(FilterSize { positions })
        } else {
            None
        }
    }

    // The number of positions.
    pub fn positions(self) -> u32
        ensures { result ≡ self.positions }
    {
        self.positions
    }

    // The number of octets in a summary.
    pub fn octets(self) -> usize
        ensures { result ≡ self.positions / 8 }
    {
        (self.positions / 8) as usize
    }
}
