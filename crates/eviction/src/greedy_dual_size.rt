// GreedyDual-Size: the record of least worth leaves first, and what is admitted or used later starts from the worth of what left.
ghost use Rattle.std.specs.Prelude.{refl};
ghost use Rattle.eviction.specs.Policies.{worth, inflated, cheaper};
ghost use Rattle.eviction.specs.Ranks.{worth_order, worth_apart};

use crate::policy::Policy;

// What one unit of cost adds to H at a size of 1.
const UNIT: u64 = 65536;

// Where H stops.
const H_MAX: u64 = 1 << 62;

// The inflation value L, to which the cost of a record by its size is added.
#[derive(Clone, Copy, PartialEq, Eq, Debug)]
pub struct GreedyDualSize {
    l: u64,
}

// H of a record, and its stamp among those of the same H.
#[derive(Clone, Copy, PartialEq, Eq, PartialOrd, Ord, Debug)]
pub struct Worth {
    pub h: u64,
    pub stamp: u32,
}

impl Policy for GreedyDualSize {
    type Rank = Worth;

    ghost ranked = { λ p stamp size cost. worth p.l stamp size cost };

    ghost told = { λ p evicted. record { l = inflated p.l evicted.h } };

    ghost before = { cheaper };

    ghost stamped = { λ x. x.stamp };

    ghost start = { record { l = 0 } };

    ghost order = { worth_order };

    ghost dated = { λ p stamp size cost. refl };

    ghost apart = { worth_apart };

    fn new() -> GreedyDualSize {
        GreedyDualSize { l: 0 }
    }

    fn rank(&self, stamp: u32, size: u32, cost: u16) -> Worth {
        let step = (cost as u64 * UNIT).checked_div(size as u64).unwrap_or(0);
        let h = self.l.saturating_add(step).min(H_MAX);
        Worth { h, stamp }
    }

    fn tell(&mut self, evicted: Worth) {
        self.l = self.l.max(evicted.h);
    }
}
