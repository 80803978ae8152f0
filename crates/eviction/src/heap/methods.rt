// What the heap does with the entries that it is lent.
ghost use Rattle.std.specs.Prelude.{◌≡◌, ◌<◌, ◌≤◌, List, [], ◌∷◌, length, drop, MatchOption, MatchResult};
ghost use Rattle.std.specs.List.Sorted.{IsPermutation};
ghost use Rattle.eviction.specs.Heaps.{live, empty, Keeps, Leads, Lacks};

use crate::heap::sift::{mend, position, sift_up, take_out};
use crate::heap::{Entry, EvictionHeap, Full};

impl EvictionHeap {
    // A heap without a live entry.
    pub fn new() -> EvictionHeap
        ensures { result ≡ empty }
    {
        EvictionHeap { len: 0 }
    }

    // How many of the entries are live.
    pub fn len<R>(&self, entries: &[Entry<R>]) -> usize
        ensures live { result ≡ length (live self.now entries.now) }
        ensures within { result ≤ length entries.now }
    {
        self.len.min(entries.len())
    }

    // One more entry, unless the live ones fill the slice.
    pub fn insert<R: Ord + Copy>(
        &mut self,
        entries: &mut [Entry<R>],
        entry: Entry<R>,
    ) -> Result<(), Full>
        ensures order { Keeps R.Ord.cmp (live self.old entries.old) (live self.new entries.new) }
        ensures cases { MatchResult result (λ _. (length (live self.old entries.old) < length entries.old) × IsPermutation (entry ∷ live self.old entries.old) (live self.new entries.new)) (λ _. (length (live self.old entries.old) ≡ length entries.old) × (self.new ≡ self.old) × (entries.new ≡ entries.old)) }
    {
        let at = self.len;
        if at >= entries.len() {
            return Err(Full);
        }
        entries[at] = entry;
        self.len = at + 1;
        sift_up(&mut entries[..at + 1], at);
        Ok(())
    }

    // An entry of least rank.
    pub fn peek<R: Ord + Copy>(&self, entries: &[Entry<R>]) -> Option<Entry<R>>
        ensures { MatchOption result (live self.now entries.now ≡ []) (λ x. (live self.now entries.now ≡ x ∷ drop 1 (live self.now entries.now)) × Leads R.Ord.cmp x (live self.now entries.now)) }
    {
        let least = entries[..self.len(entries)].first()?;
        Some(*least)
    }

    // Takes out the entry that `peek` answers.
    pub fn take_least<R: Ord + Copy>(&mut self, entries: &mut [Entry<R>]) -> Option<Entry<R>>
        ensures order { Keeps R.Ord.cmp (live self.old entries.old) (live self.new entries.new) }
        ensures cases { MatchOption result ((live self.old entries.old ≡ []) × (self.new ≡ self.old) × (entries.new ≡ entries.old)) (λ x. (live self.old entries.old ≡ x ∷ drop 1 (live self.old entries.old)) × Leads R.Ord.cmp x (live self.old entries.old) × IsPermutation (live self.old entries.old) (x ∷ live self.new entries.new)) }
    {
        let len = self.len(entries);
        self.len = len.checked_sub(1)?;
        Some(take_out(&mut entries[..len], 0))
    }

    // Takes out an entry with this place, if one is live.
    pub fn remove<R: Ord + Copy>(
        &mut self,
        entries: &mut [Entry<R>],
        place: usize,
    ) -> Option<Entry<R>>
        ensures order { Keeps R.Ord.cmp (live self.old entries.old) (live self.new entries.new) }
        ensures cases { MatchOption result (Lacks (live self.old entries.old) place × (self.new ≡ self.old) × (entries.new ≡ entries.old)) (λ x. (x.place ≡ place) × IsPermutation (live self.old entries.old) (x ∷ live self.new entries.new)) }
    {
        let len = self.len(entries);
        let live = &mut entries[..len];
        let at = position(live, place)?;
        self.len = len - 1;
        Some(take_out(live, at))
    }

    // Gives an entry with this place another rank, and answers the entry as it was.
    pub fn rerank<R: Ord + Copy>(
        &mut self,
        entries: &mut [Entry<R>],
        place: usize,
        rank: R,
    ) -> Option<Entry<R>>
        ensures heap { self.new ≡ self.old }
        ensures order { Keeps R.Ord.cmp (live self.old entries.old) (live self.new entries.new) }
        ensures cases { MatchOption result (Lacks (live self.old entries.old) place × (entries.new ≡ entries.old)) (λ x. (x.place ≡ place) × ((rest : List (Entry R)) × IsPermutation (live self.old entries.old) (x ∷ rest) × IsPermutation (live self.new entries.new) (record { rank = rank; place = place } ∷ rest))) }
    {
        let len = self.len(entries);
        let live = &mut entries[..len];
        let at = position(live, place)?;
        let old = live[at];
        live[at] = Entry { rank, place };
        mend(live, at);
        Some(old)
    }
}
