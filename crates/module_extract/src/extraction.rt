// The local module of a query.
ghost use Rattle.std.specs.Prelude.{◌≡◌, IfOk, length};
ghost use Rattle.pinpointing_specs.specs.LocalModule.{IsLocalModule};

use crate::growth::Growth;
use crate::users::Users;
use axiom_sets::AxiomSet;
use shq_terms::{NoMemory, Ontology, Query};
use std::alloc::Global;

/// The local module of the query: the least set of axioms of the ontology such that each axiom that is not local for
/// the names of the query and of the set is in the set. Its limit is the count of axioms, and it holds each
/// justification of the query (`pinpointing_specs::modules_hold_justifications`). The query may have any names.
///
/// # Errors
///
/// `NoMemory` where the allocator refuses room for the index of names, for lists of names or for the module.
#[tactic(auto, using(crate::proofs::Placed::names_listed))]
pub fn module(alloc: Global, ontology: &Ontology, query: &Query) -> Result<AxiomSet, NoMemory>
    ensures limit { IfOk result (λ m. m.limit ≡ length ontology.now.axioms) }
    ensures module { IfOk result (λ m. IsLocalModule ontology.now.axioms query.now m.members) }
{
    let classes = ontology.class_count();
    let roles = ontology.role_count();
    let axioms = ontology.axioms();
    let users = Users::new(alloc, classes, roles, axioms)?;
    let mut growth = Growth::new(alloc, classes, roles, axioms, query)?;
    growth.look_at_each(alloc, axioms)?;
    growth.close(alloc, axioms, &users)?;
    Ok(growth.into_members())
}
