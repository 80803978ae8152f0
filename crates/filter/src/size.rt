// How many positions a filter has.
ghost use Rattle.std.specs.Prelude.{◌≡◌, ◌%◌, ◌≤◌};

mod methods;

// A multiple of 8 from 64 to 65,536.
#[derive(Clone, Copy, PartialEq, Eq, Debug)]
pub struct FilterSize {
    pub(crate) positions: u32,
    ghost least: { 64 ≤ positions },
    ghost most: { positions ≤ 65536 },
    ghost eights: { positions % 8 ≡ 0 },
}

// Two sizes differ where they must not.
#[derive(Clone, Copy, PartialEq, Eq, Debug)]
pub struct OtherSize;
