// What a log says of a set.

use axiom_sets::AxiomSet;
use set_questions::Reply;

/// What the log of an asker says of a set.
#[derive(Drop)]
pub enum Known {
    /// An entry answers for it.
    Answered(Reply),
    /// No entry does. These of its axioms are those to be tested.
    Unknown(AxiomSet),
}
