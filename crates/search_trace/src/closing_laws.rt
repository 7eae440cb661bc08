//! How the trace of a search closes: rule lines with the marks that they rest on, and what may be taken out of them.
ghost use Rattle.search_trace.specs.Alternatives.{AlternativesArePut};
ghost use Rattle.search_trace.specs.ClosingLaws.{RulesSayChildren, PremisesStay, StrippedLinesClose, StepsAreTraced};
ghost use Rattle.search_trace.specs.ClosingLaws.{ClosingGoesBack, ClosingEnds, NumbersTakeOut, StartIsTraced};
ghost use Rattle.search_trace.specs.ClosingLaws.{ClosedTracesRefute, RulesFollowShapes, MoreMarksHold};
ghost use Rattle.search_trace.specs.ClosingLaws.{GroundedFactsKnow, TrailsRestOnChoices, LinesHoldByAll};
ghost use Rattle.search_trace.specs.ClosingLaws.{NamedPartsServe};

/// What a line asks of a branch is a list of facts, and what it adds is the same in every branch.
pub fn rules_say_children()
    ensures { RulesSayChildren }
{}

/// A fact that holds in a branch holds in one that knows more.
pub fn premises_stay()
    ensures { PremisesStay }
{}

/// A child that is closed without its branching's mark closes without the branching.
pub fn stripped_lines_close()
    ensures { StrippedLinesClose }
{}

/// A search that begins has a trace.
pub fn start_is_traced()
    ensures { StartIsTraced }
{}

/// Lines that close everything are a refutation.
pub fn closed_traces_refute()
    ensures { ClosedTracesRefute }
{}

/// What a line asks of a branch and adds to it follows from the shape of its concept.
pub fn rules_follow_shapes()
    ensures { RulesFollowShapes }
{}

/// What holds by facts that rest on some marks holds by those that rest on more.
pub fn more_marks_hold()
    ensures { MoreMarksHold }
{}

/// Nodes of which facts speak that rest on some marks are known by facts that rest on them.
pub fn grounded_facts_know()
    ensures { GroundedFactsKnow }
{}

/// Every fact of a trail rests on the choices of the trail.
pub fn trails_rest_on_choices()
    ensures { TrailsRestOnChoices }
{}

/// A line whose premises hold in the state has them by facts that rest on the choices of the trail.
pub fn lines_hold_by_all()
    ensures { LinesHoldByAll }
{}

/// Lines run the same way over the axioms that they name.
pub fn named_parts_serve()
    ensures { NamedPartsServe }
{}

/// The steps of a search are lines of its trace.
pub fn steps_are_traced()
    ensures { StepsAreTraced }
{}

/// Once the open child of the latest branching is closed, the branching is taken out, closed or turned.
pub fn closing_goes_back()
    ensures { ClosingGoesBack }
{}

/// Where no branching is open, closing ends.
pub fn closing_ends()
    ensures { ClosingEnds }
{}

/// Lines may be taken out by their numbers.
pub fn numbers_take_out()
    ensures { NumbersTakeOut }
{}

/// The fact of an alternative is what the child in its place adds.
pub fn alternatives_are_put()
    ensures { AlternativesArePut }
{}
