// What holds of messages however they came about.
ghost use Rattle.opening.specs.Laws.{Laws as MessageLaws};

// What is written is read back, and what is read has one writing; a change list turns one summary into the other.
pub fn message_laws()
    ensures { MessageLaws }
{}
