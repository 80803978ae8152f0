// Eviction by any policy.
ghost use Rattle.std.specs.Prelude.{◌≡◌, [], ◌∷◌, MatchOption};
ghost use Rattle.std.specs.List.Sorted.{IsPermutation};
ghost use Rattle.eviction.specs.Heaps.{live, Heaped, Least};

use crate::heap::{Entry, EvictionHeap};
use crate::policy::Policy;

// Takes out the entry that leaves first, and tells the policy its rank.
pub fn evict_least<P: Policy>(
    policy: &mut P,
    heap: &mut EvictionHeap,
    entries: &mut [Entry<P::Rank>],
) -> Option<Entry<P::Rank>>
    ensures order { Heaped P.Policy.before (live heap.old entries.old) → Heaped P.Policy.before (live heap.new entries.new) }
    ensures cases { MatchOption result ((live heap.old entries.old ≡ []) × (policy.new ≡ policy.old) × (heap.new ≡ heap.old) × (entries.new ≡ entries.old)) (λ x. (Heaped P.Policy.before (live heap.old entries.old) → Least P.Policy.before x (live heap.old entries.old)) × IsPermutation (live heap.old entries.old) (x ∷ live heap.new entries.new) × (policy.new ≡ P.Policy.told policy.old x.rank)) }
{
    let entry = heap.take_least(entries)?;
    policy.tell(entry.rank);
    Some(entry)
}
