//! The local module of a query, in about the time that it takes to go over the axioms (B. Cuenca Grau, I. Horrocks,
//! Y. Kazakov and U. Sattler, "Modular Reuse of Ontologies: Theory and Practice", Journal of Artificial Intelligence
//! Research 31, 2008).
//!
//! The module grows from the names of the query: an axiom that is not local for the names that came in so far joins it,
//! and its names come in. Each name that comes in is taken up once, and then only the axioms that use it are looked at
//! again, by an index from names to axioms. So the work is one look at each axiom, and one for each use of a name that
//! came in. The contract knows nothing of that: it says that the answer is the least set which `pinpointing_specs`
//! defines.
#![tactic(auto)]

mod extraction;
mod growth;
mod locality;
mod marks;
mod names;
mod users;

pub use extraction::module;
pub use shq_terms::NoMemory;
