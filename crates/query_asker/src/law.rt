// What an asker may ask within.
ghost use Rattle.query_asker.specs.Told.{ModulesKeepAnswers, HoldersKeepAnswers};

/// A query follows from some axioms of an ontology just where it follows from those of them that are in its local
/// module: so an asker may ask within it.
pub fn modules_keep_answers()
    ensures { ModulesKeepAnswers }
{}

/// A query follows from some axioms of an ontology just where it follows from those of them that are in a set, if the
/// set holds each justification of the query: so `Asker::within` may be given such a set, be it a local module or not.
pub fn holders_keep_answers()
    ensures { HoldersKeepAnswers }
{}
