// What holds of every layer's counting.
ghost use Rattle.channel.specs.Cycles.{EveryNthIsDue as Law};

// Of the calls that a layer counts, every n-th is due.
pub fn every_nth_is_due()
    ensures { Law }
{}
