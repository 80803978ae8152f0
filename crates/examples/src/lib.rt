// Worked examples of the rules, proved of the definitions that the contracts cite.
#![tactic(auto)]

ghost use Rattle.examples.specs.Worked.{Worked};

// Each worked example holds.
pub fn worked_examples()
    ensures { Worked }
{}

#[cfg(test)]
mod tests;
