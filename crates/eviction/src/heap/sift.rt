// The steps that keep a slice of entries a heap. Each takes the entries and an index, as any function on a slice does.
ghost use Rattle.std.specs.Prelude.{◌≡◌, ◌+◌, ◌-◌, ◌*◌, ◌<◌, ◌≤◌, ◌∷◌, length, take, MatchOption, slice_index_or};
ghost use Rattle.std.specs.List.Sorted.{IsPermutation};
ghost use Rattle.eviction.specs.Heaps.{Keeps, Lacks};
ghost use Rattle.eviction.specs.Sifts.{Tells, Best, Rises, Sinks, Mends};

use crate::heap::Entry;

// Whether the rank at `a` is below that at `b`.
fn is_less<R: Ord + Copy>(live: &[Entry<R>], a: usize, b: usize) -> bool
    requires { (a < length live.now) × (b < length live.now) }
    ensures { Tells R.Ord.cmp live.now a b result }
{
    live[a].rank < live[b].rank
}

// The child of `at` whose rank is least.
fn least_child<R: Ord + Copy>(live: &[Entry<R>], at: usize) -> usize
    requires { 2 * at + 1 < length live.now }
    ensures bound { (result < length live.now) × (at * 2 + 1 ≤ result) × (result ≤ at * 2 + 2) }
    ensures best { Best R.Ord.cmp live.now at result }
{
    let left = 2 * at + 1;
    let right = left + 1;
    if right < live.len() && is_less(live, right, left) {
        return right;
    }
    left
}

// Moves the entry at `at` up to where its parent's rank is not above its own. The index goes from child to parent, which no iterator does.
pub(crate) fn sift_up<R: Ord + Copy>(live: &mut [Entry<R>], mut at: usize)
    requires { at < length live.old }
    ensures shuffled { IsPermutation live.old live.new }
    ensures rises { Rises R.Ord.cmp live.old at live.new }
{
    while at > 0 {
        let parent = (at - 1) / 2;
        if !is_less(live, at, parent) {
            return;
        }
        live.swap(parent, at);
        at = parent;
    }
}

// Moves the entry at `at` down to where no child's rank is below its own. The index goes from parent to child, which no iterator does.
fn sift_down<R: Ord + Copy>(live: &mut [Entry<R>], mut at: usize)
    requires { at < length live.old }
    ensures shuffled { IsPermutation live.old live.new }
    ensures sinks { Sinks R.Ord.cmp live.old at live.new }
{
    let len = live.len();
    while at < len / 2 {
        let child = least_child(live, at);
        if !is_less(live, child, at) {
            return;
        }
        live.swap(at, child);
        at = child;
    }
}

// Makes a heap of entries that are one but for the entry at `at`.
pub(crate) fn mend<R: Ord + Copy>(live: &mut [Entry<R>], at: usize)
    requires { at < length live.old }
    ensures shuffled { IsPermutation live.old live.new }
    ensures mends { Mends R.Ord.cmp live.old at live.new }
{
    if at > 0 && is_less(live, at, (at - 1) / 2) {
        sift_up(live, at);
    } else {
        sift_down(live, at);
    }
}

// Where an entry with this place stands.
pub(crate) fn position<R: Copy>(live: &[Entry<R>], place: usize) -> Option<usize>
    ensures { MatchOption result (Lacks live.now place) (λ i. (i < length live.now) × ((d : Entry R) → (slice_index_or live.now i d).place ≡ place)) }
{
    live.iter().position(|e| e.place == place)
}

// Takes the entry at `at` out: the last one comes there, and the last place is free.
pub(crate) fn take_out<R: Ord + Copy>(live: &mut [Entry<R>], at: usize) -> Entry<R>
    requires { at < length live.old }
    ensures value { (d : Entry R) → result ≡ slice_index_or live.old at d }
    ensures shuffled { IsPermutation live.old (result ∷ take (length live.old - 1) live.new) }
    ensures keeps { Keeps R.Ord.cmp live.old (take (length live.old - 1) live.new) }
{
    let last = live.len() - 1;
    let out = live[at];
    live[at] = live[last];
    if at < last {
        mend(&mut live[..last], at);
    }
    out
}
