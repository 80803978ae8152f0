// Numbers without an order, the same in every run. The step is that of `measure`: programs share no code of their own.
ghost use Rattle.std.specs.Prelude.{◌<◌, ◌^◌, length};

#[derive(Drop)]
pub struct Random {
    state: u32,
}

impl Random {
    pub(crate) fn new(state: u32) -> Random {
        Random { state }
    }

    // A number below n, or 0 where n is.
    pub(crate) fn below(&mut self, n: u32) -> u32
        ensures { 0 < n → result < n }
    {
        self.state = self.state.wrapping_mul(1664525).wrapping_add(1013904223);
        if n == 0 { 0 } else { self.state / 65536 % n }
    }

    // An octet.
    pub(crate) fn octet(&mut self) -> u8 {
        self.below(256) as u8
    }

    // One of some values.
    pub(crate) fn pick<T: Copy>(&mut self, values: &[T]) -> T
        requires some { 0 < length values.now }
        requires few { length values.now < 2 ^ 32 }
    {
        values[self.below(values.len() as u32) as usize]
    }
}
