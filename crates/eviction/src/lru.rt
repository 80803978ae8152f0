// LRU: the record that was admitted or used least recently leaves first.
ghost use Rattle.std.specs.Prelude.{refl};
ghost use Rattle.eviction.specs.Policies.{latest, earlier};
ghost use Rattle.eviction.specs.Ranks.{stamp_order, stamp_apart};

use crate::policy::Policy;

#[derive(Clone, Copy, PartialEq, Eq, Debug)]
pub struct Lru;

// When a record was last admitted or used.
#[derive(Clone, Copy, PartialEq, Eq, PartialOrd, Ord, Debug)]
pub struct Stamp(pub u32);

impl Policy for Lru {
    type Rank = Stamp;

    ghost ranked = { λ p stamp size cost. latest stamp };

    ghost told = { λ p evicted. p };

    ghost before = { earlier };

    ghost stamped = { λ x. x.0 };

    ghost start = { record {} };

    ghost order = { stamp_order };

    ghost dated = { λ p stamp size cost. refl };

    ghost apart = { stamp_apart };

    fn new() -> Lru {
        Lru
    }

    fn rank(&self, stamp: u32, size: u32, cost: u16) -> Stamp {
        Stamp(stamp)
    }

    fn tell(&mut self, evicted: Stamp) {}
}
