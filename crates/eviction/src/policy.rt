// What a policy of eviction is.
ghost use Rattle.std.specs.Prelude.{◌≡◌, ℕ, Bool, true, false, ◌≢◌};
ghost use Rattle.std.specs.Cmp.{IsTotalOrder};
ghost use Rattle.std.specs.Ordering.{is_lt};

// Ranks each record when it is admitted or used, and is told the rank of each that is evicted.
pub trait Policy {
    type Rank: Ord + Copy;

    // the rank of a record admitted or used: the policy, the stamp, and the record's size and cost
    ghost ranked: { Self → ℕ → ℕ → ℕ → Self.Rank };

    // the policy after a record of this rank was evicted
    ghost told: { Self → Self.Rank → Self };

    // whether the first rank is below the second: its record leaves first
    ghost before: { Self.Rank → Self.Rank → Bool };

    // the stamp in a rank
    ghost stamped: { Self.Rank → ℕ };

    // a policy as it begins
    ghost start: { Self };

    fn new() -> Self
        ensures { result ≡ start };

    // Three arguments, since they are what ranks a record: a policy knows no store, nor its records.
    fn rank(&self, stamp: u32, size: u32, cost: u16) -> Self::Rank
        ensures { result ≡ ranked self.now stamp size cost };

    fn tell(&mut self, evicted: Self::Rank)
        ensures { self.new ≡ told self.old evicted };

    // The order of the ranks is lawful and total, and is that of `before`.
    ghost order: { IsTotalOrder Self.Rank.Ord.cmp × ((x y : Self.Rank) → is_lt (Self.Rank.Ord.cmp x y) ≡ before x y) };

    // A rank has the stamp that it was made with.
    ghost dated: { (p : Self) (stamp size cost : ℕ) → stamped (ranked p stamp size cost) ≡ stamp };

    // Of two ranks with different stamps one is below the other.
    ghost apart: { (x y : Self.Rank) → before y x ≡ false → (stamped x ≢ stamped y) → before x y ≡ true };
}
