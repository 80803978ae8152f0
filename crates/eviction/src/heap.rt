// A binary heap in memory of the caller: the entry of least rank stands first.
mod methods;
mod sift;

// A record's rank, and its place in the store.
#[derive(Clone, Copy, PartialEq, Eq, Debug)]
pub struct Entry<R> {
    pub rank: R,
    pub place: usize,
}

// How many of the caller's entries are live: so many from the first on, or all where there are fewer. The entries are fixed memory of the caller's, lent to each call, so that they are a heap is said in each contract (`Keeps`), and not by a fact of this type.
#[derive(Clone, Copy, Debug)]
pub struct EvictionHeap {
    len: usize,
}

// There is no room for one more entry.
#[derive(Clone, Copy, PartialEq, Eq, Debug)]
pub struct Full;
