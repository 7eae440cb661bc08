//! What each rule line of a refutation does to the branch to which it belongs.
//!
//! Rule lines are the rules of tableaux for SHIQ without inverse roles (I. Horrocks, U. Sattler and S. Tobies,
//! *Practical Reasoning for Very Expressive Description Logics*, Logic Journal of the IGPL 8, 2000), written down where
//! they were used, each with its node and its concept. So no rule is searched for here, and none is blocked. A line is
//! tested, and answered by an [`Outcome`]: its branch is closed, knows more, or is replaced by one branch for each
//! alternative.
//!
//! [`Rules`] are made for one refutation of one query. They hold a table of concepts by number, in which branches are
//! kept, the roles by the axioms that the refutation names, and the rows that its lines use. The first nodes of a
//! branch stand for the individuals of the ontology, each for that of its number, and one more for an element without a
//! name.
#![tactic(auto)]

mod assertions;
mod concept_lines;
mod counts;
mod edge_lines;
mod individual_lines;
mod new_nodes;
mod numbering;
mod outcome;
mod premises;
mod row_lines;
mod rules;

pub use branch_facts::{BranchFacts, Fact, Mark};
pub use outcome::{FirstNodes, NewNodes, Outcome};
pub use premises::Premise;
pub use refutation_tree::{Line, Refutation};
pub use rules::Rules;
pub use shq_terms::NoMemory;
