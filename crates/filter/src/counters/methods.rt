// Counters raised, lowered and read.
ghost use Rattle.std.specs.Prelude.{◌≡◌, ℕ, ◌+◌, ◌*◌, ◌<◌, ◌≤◌, length, replicate, IfOk, MatchOption, nat_lt, slice_index};
ghost use Rattle.filter.specs.Counters.{Changed, Issued, Spent};
ghost use Rattle.filter.specs.Summaries.{has_value};

use super::CountingFilter;
use crate::receipt::Receipt;
use crate::size::FilterSize;
use std::alloc::{AllocError, Global};

// Each call says that the size remains: that is a fact of two moments, which no ghost field can state.
impl CountingFilter {
    // A filter in which no counter is above 0. A summary is made likewise, but for the length: two types, with facts of their own.
    pub fn new(heap: Global, size: FilterSize) -> Result<CountingFilter, AllocError>
        ensures { IfOk result (λ f. (f.size ≡ size) × (f.counters.items ≡ replicate size.positions 0)) }
    {
        let counters = vec![in heap; 0; size.positions as usize]?;
        Ok(CountingFilter { size, counters })
    }

    // The number of positions.
    pub fn size(&self) -> FilterSize
        ensures { result ≡ self.now.size }
    {
        self.size
    }

    // The counter of a position, or none where there is no such position.
    pub fn counter(&self, position: u32) -> Option<u8>
        ensures { MatchOption result (self.now.size.positions ≤ position) (λ c. (position < self.now.size.positions) × (c ≡ slice_index self.now.counters.items position)) }
    {
        self.counters.get(position as usize).copied()
    }

    // Each counter that a receipt names takes one step, once also where a position stands twice.
    fn step<F: Fn(u8) -> u8>(&mut self, receipt: &Receipt, step: F)
        requires callable { F.IsAlwaysCallable step }
        requires small { (before after : ℕ) → before ≤ 15 → F.post step before after → after ≤ 15 }
        ensures size { self.new.size ≡ self.old.size }
        ensures stepped { Changed (F.post step) receipt.now.positions self.old.counters.items self.new.counters.items }
    {
        for (place, position) in receipt.positions.iter().enumerate() {
            let at = *position as usize;
            if at < self.counters.len() && !receipt.repeats(place) {
                self.counters[at] = step(self.counters[at]);
            }
        }
    }

    // Issues a receipt: each counter that it names goes up by 1, to 15 at most.
    pub fn raise(&mut self, receipt: &Receipt)
        ensures size { self.new.size ≡ self.old.size }
        ensures issued { Issued receipt.now.positions self.old.counters.items self.new.counters.items }
    {
        self.step(receipt, |count| if count < 15 { count + 1 } else { count });
    }

    // Spends a receipt: each counter that it names goes down by 1, but one at 15 remains.
    pub fn lower(&mut self, receipt: &Receipt)
        ensures size { self.new.size ≡ self.old.size }
        ensures spent { Spent receipt.now.positions self.old.counters.items self.new.counters.items }
    {
        self.step(receipt, |count| {
            if 0 < count && count != 15 {
                count - 1
            } else {
                count
            }
        });
    }

    // One octet of the summary: a bit is 1 exactly when its counter is above 0. It is 0 past the last octet.
    pub fn octet(&self, at: usize) -> u8
        ensures { (k : ℕ) → k < 8 → has_value result k ≡ nat_lt 0 (slice_index self.now.counters.items (8 * at + k)) }
    {
        if at >= self.size.octets() {
            return 0;
        }
        let counters = self.counters.as_slice();
        pack(&counters[8 * at..8 * at + 8])
    }
}

// Eight counters as an octet, the first with the value 1.
fn pack(counters: &[u8]) -> u8
    requires { length counters.now ≡ 8 }
    ensures { (k : ℕ) → k < 8 → has_value result k ≡ nat_lt 0 (slice_index counters.now k) }
{
    let mut octet = 0;
    for count in counters.iter().rev() {
        octet = 2 * octet + u8::from(*count > 0);
    }
    octet
}
