//! One beginning serves many queries.
//!
//! Where axioms speak of many individuals, each search gives all that they assert and follows it up. What comes of that
//! is the same whatever is asked of an element without a name. So one search can do it once, for the question whether
//! anything is in top and not in bottom, and others can go on from there. A budget counts legal steps of the search
//! that was asked for, though. So it has to be shown that this search could have made the same steps: it owes them
//! then, and nobody has to make them again.
//!
//! - **The same steps are legal** where the beginning says nothing of the node in question, and no axiom speaks of that
//!   node. No edge begins or ends there, and the node is joined to no other, so that no step looks at its label but for
//!   blocks. A clash at the node is one of its own start. Whether a beginning that has ended saturated says anything of
//!   the node is seen in its last trail.
//! - **It may block other nodes** once it has the two concepts of its start: those with a label inside the start. Such
//!   nodes may stand in the trail, as long as nothing was made below them: a step that made nodes there would not be
//!   legal, and what stands under a blocked node blocks nothing itself. A look at the two concepts excludes this: where
//!   neither is 'some' or 'at least', whatever asked for the nodes below a node is a concept besides.
//! - **Going back** is legal too, since no clash is lost. So a beginning may have choices.
//!
//! Tableau reasoners keep the completed graph of the assertions, and begin other tests with it (Sirin, Cuenca Grau and
//! Parsia, "From Wine to Water: Optimizing Description Logic Reasoning for Nominals", 2006). Here such a beginning
//! saves work, and no step of the count.
ghost use Rattle.search_laws.specs.BeginningLaws.{OneBeginningServesMany, OneBeginningRunsOn, ParentsHaveAsked};
ghost use Rattle.search_laws.specs.BeginningLaws.{RunsSayNothingThere};

/// A run that says nothing of the node in question begins the search for each query on any element whose start has no
/// clash, if no node with a label inside this start has a node below it.
pub fn one_beginning_serves_many()
    ensures { OneBeginningServesMany }
{}

/// The trails of such a beginning, each behind the other start, are a run of that search. It puts what the beginning
/// did, and the two facts of its start, so that what was noted of the beginning serves it too. It has no clash where
/// the beginning has none.
pub fn one_beginning_runs_on()
    ensures { OneBeginningRunsOn }
{}

/// No node with a label inside a start has a node below it where no concept of the start asks for nodes.
pub fn parents_have_what_asked_for_nodes()
    ensures { ParentsHaveAsked }
{}

/// A run that ends saturated, and says no more of the node in question than top at its end, never said more of it.
pub fn runs_say_nothing_there()
    ensures { RunsSayNothingThere }
{}
