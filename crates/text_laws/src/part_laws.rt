//! The parts of axioms that a reader counts are those of which searches make their rows, and the facts of assertions.
ghost use Rattle.text_laws.specs.PartLaws.{PartsAreCounted};

/// For an axiom that is read as many parts are counted as a search takes parts and facts of it.
pub fn parts_are_counted()
    ensures { PartsAreCounted }
{}
