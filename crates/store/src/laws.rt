// What holds of every search.
ghost use Rattle.store.specs.Laws.{SearchDetermined as Determined};

// A search has one answer.
pub fn search_law()
    ensures { Determined }
{}
