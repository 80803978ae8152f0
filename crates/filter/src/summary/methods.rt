// Summaries read and compared.
ghost use Rattle.std.specs.Prelude.{◌≡◌, ◌/◌, ◌<◌, replicate, IfOk, MatchOption, MatchResult, ◌≢◌};
ghost use Rattle.filter.specs.Summaries.{bit, present, differs, tally, Summarizes};

use super::Summary;
use crate::counters::CountingFilter;
use crate::receipt::Receipt;
use crate::size::{FilterSize, OtherSize};
use std::alloc::{AllocError, Global};

impl Summary {
    // A summary in which every bit is 0. A filter is made likewise, but for the length: two types, with facts of their own.
    pub fn new(heap: Global, size: FilterSize) -> Result<Summary, AllocError>
        ensures { IfOk result (λ s. (s.size ≡ size) × (s.octets.items ≡ replicate (size.positions / 8) 0)) }
    {
        let octets = vec![in heap; 0; size.octets()]?;
        Ok(Summary { size, octets })
    }

    // The number of positions.
    pub fn size(&self) -> FilterSize
        ensures { result ≡ self.now.size }
    {
        self.size
    }

    // The octets, in the order in which a message carries them.
    pub fn octets(&self) -> &[u8]
        ensures { result.now ≡ self.now.octets.items }
    {
        self.octets.as_slice()
    }

    // The bit of a position; false where there is no such position.
    pub fn bit(&self, position: u32) -> bool
        ensures { result ≡ bit self.now.octets.items position }
    {
        self.octets
            .get((position / 8) as usize)
            .is_some_and(|octet| (*octet >> (position % 8)) % 2 == 1)
    }

    // Whether a name with this receipt tests present.
    pub fn has(&self, receipt: &Receipt) -> bool
        ensures { result ≡ present self.now.octets.items receipt.now.positions }
    {
        receipt.positions.iter().all(|position| self.bit(*position))
    }

    // How many positions have bit 1.
    pub fn ones(&self) -> u32
        ensures { result ≡ tally (bit self.now.octets.items) self.now.size.positions }
    {
        let mut count = 0;
        for octet in &self.octets {
            count += octet.count_ones();
        }
        count
    }

    // In how many positions two summaries differ, or none where their sizes do.
    pub fn differences(&self, other: &Summary) -> Option<u32>
        ensures { MatchOption result (self.now.size.positions ≢ other.now.size.positions) (λ n. (self.now.size.positions ≡ other.now.size.positions) × (n ≡ tally (differs self.now.octets.items other.now.octets.items) self.now.size.positions)) }
    {
        if self.size.positions != other.size.positions {
            return None;
        }
        let mut count = 0;
        for (one, another) in self.octets.iter().zip(other.octets.iter()) {
            count += (*one ^ *another).count_ones();
        }
        Some(count)
    }

    // Becomes the summary of a filter: a bit is 1 exactly when its counter is above 0. Refused where the sizes differ.
    pub fn summarize(&mut self, filter: &CountingFilter) -> Result<(), OtherSize>
        ensures size { self.new.size ≡ self.old.size }
        ensures octets { MatchResult result (λ _. Summarizes filter.now.counters.items self.new.octets.items) (λ _. (filter.now.size.positions ≢ self.old.size.positions) × (self.new ≡ self.old)) }
    {
        if filter.size().positions() != self.size.positions {
            return Err(OtherSize);
        }
        for (at, octet) in self.octets.iter_mut().enumerate() {
            *octet = filter.octet(at);
        }
        Ok(())
    }
}
