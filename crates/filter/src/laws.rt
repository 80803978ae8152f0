// What holds of counters and summaries however they came about.
ghost use Rattle.filter.specs.Laws.{Laws as FilterLaws};

// The laws of issuing and spending receipts, of the counters and of the summary.
pub fn filter_laws()
    ensures { FilterLaws }
{}
