//! Where a search looks for its next step first: at the facts that were put since it looked last.
//!
//! A step that becomes possible rests on a new fact. For each kind of step an [`Agenda`] keeps up to which fact of the
//! trail it has looked, and looks at each later fact for what that makes possible. So a search does not look through
//! its whole state for each step, as a worklist does not (F. Baader and U. Sattler, "An Overview of Tableau Algorithms
//! for Description Logics", Studia Logica 69, 2001, has the rules). These places are kept with each choice. If the
//! search goes back to the choice, the agenda looks again from there: the facts before it are those of that time. At
//! the edge to a new node it also keeps how many of the rows that are used at each node were asked, so that the node
//! gets what they give one row after the other.
//!
//! A row that waits for several names is filed under one of them (`absorption`). A node may get another of these names
//! last. So the rows that wait for a name are also found if they are filed under other names, as far as the search has
//! met these.
//!
//! If all parts of a union but one would clash at once, that part is taken at once, as in unit propagation (I.
//! Horrocks, *Optimising Tableaux Decision Procedures for Description Logics*, University of Manchester 1997). Whether
//! this has become so is asked only of the unions of which a new fact closes a part. They are found by the concept of
//! the fact, as clauses are found by the literals that are watched in them (M. Moskewicz and others, "Chaff:
//! Engineering an Efficient SAT Solver", DAC 2001).
//!
//! Each step that an agenda finds is legal. If it finds none, there may still be one, since a join, or a block that
//! goes, can make an old fact count again: then `step_finders::find_step` looks through everything.
//!
//! The facts that axioms give to individuals are put outwards from the node in question: first those that name it, and
//! the next ring when nothing follows from the facts so far without a choice between several parts. If no given fact
//! names the node in question, as when a query asks of any element, given facts are put when nothing else is left to
//! do. A given edge may lead to a node of which more is known than that it is there. So what the edge brings is looked
//! for with all concepts of its end. And if an individual gets a concept, that is looked at from each individual with
//! an edge to it, while other nodes have only a parent.
//!
//! If a question is on an individual, rows give unions to individuals only after all given facts were put, unless all
//! parts but one would clash there at once: most answers that are yes need few unions. The nodes that the individual
//! in question asks for are made as soon as the facts of its neighbours are given.
//!
//! Steps that need no look at blocks are looked for first. So blocks are found only when no such step is left, and not
//! after each step. Unions of individuals are among these steps. But a clash below other nodes shows only when these
//! have been made, and going back from it loses all choices that came later. So the search looks for such nodes after
//! some choices, and again whenever the choices have doubled. Where there are individuals, the unions of one other node
//! are decided one after the other, before blocks are found again. A search turns in circles if it has made many more
//! steps than its trail has entries. From then on unions of individuals come in their turn, after all nodes that are to
//! be made.
//!
//! A search may go on behind a trail that it was given. Then the agenda passes over the entries behind the start: what
//! follows from them was done when that trail was made.
//!
//! [`TreeState`] is a completion tree as the state that finders look through, and [`TreeWithBlocks`] is one with the
//! blocks of its nodes.
#![tactic(auto)]

mod above;
mod additions;
mod agenda;
mod branchings;
mod forced;
mod givings;
mod makings;
mod met;
mod nearness;
mod pairs;
mod passed;
mod tree_state;
mod waiting;
mod watched;

pub use agenda::Agenda;
pub use blocking::{
    BlockEffort, Blocks, By, Choice, Deps, Item, Mark, Tree, blocks_stay, current_before,
    still_current,
};
pub use step_finders::NoMemory;
pub use tree_state::{TreeState, TreeWithBlocks};
