// Which calls of a layer are due.
ghost use Rattle.std.specs.Prelude.{◌≡◌};
ghost use Rattle.channel.specs.Cycles.{start, due, next};

// Of every `period` calls the last is due, and none where the period is 0. The phase counts the calls since the last that was due.
#[derive(Clone, Copy)]
pub(crate) struct Cycle {
    period: u8,
    phase: u8,
}

impl Cycle {
    // No call was counted.
    pub(crate) fn new(period: u8) -> Cycle
        ensures { result ≡ start period }
    {
        Cycle { period, phase: 0 }
    }

    // Whether the next call is due.
    pub(crate) fn is_due(self) -> bool
        ensures { result ≡ due self }
    {
        u16::from(self.phase) + 1 == u16::from(self.period)
    }

    // The cycle after one more call.
    pub(crate) fn next(self) -> Cycle
        ensures { result ≡ next self }
    {
        let phase = if u16::from(self.phase) + 1 < u16::from(self.period) {
            self.phase + 1
        } else {
            0
        };
        Cycle {
            period: self.period,
            phase,
        }
    }
}
