// The questions whether individuals are instances of a class expression.
ghost use Rattle.std.specs.Prelude.{◌≡◌, IfOk, length};
ghost use Rattle.shq_terms.specs.Concept.{top};
ghost use Rattle.individual_jobs.specs.Searching.{instance_queries, IsModuleOfEach};

use axiom_sets::AxiomSet;
use pinpointing_jobs::module;
use shq_terms::{Concept, NoMemory, Node, On, Ontology, Query};
use std::alloc::Global;

/// The questions of the first individuals of the list, so many of them.
///
/// # Errors
///
/// Out of memory.
pub(crate) fn instance_queries(
    alloc: Global,
    class: &Concept,
    count: u32,
) -> Result<Vec<Query>, NoMemory>
    ensures { IfOk result (λ queries. queries.items ≡ instance_queries class.now count) }
{
    let mut queries = Vec::new(alloc);
    for individual in 0..count {
        queries.push(query_on(alloc, class, On::Individual(individual))?)?;
    }
    Ok(queries)
}

/// The local module of each of these questions.
///
/// # Errors
///
/// Out of memory.
pub(crate) fn module_of_each(
    alloc: Global,
    ontology: &Ontology,
    class: &Concept,
) -> Result<AxiomSet, NoMemory>
    ensures limit { IfOk result (λ m. m.limit ≡ length ontology.now.axioms) }
    ensures module { IfOk result (λ m. IsModuleOfEach ontology.now class.now m.members) }
{
    let query = query_on(alloc, class, On::Any)?;
    let outcome = module(alloc, ontology, &query);
    drop(query);
    outcome
}

// The question whether what it is on is in the class expression.
fn query_on(alloc: Global, class: &Concept, on: On) -> Result<Query, NoMemory>
    ensures { IfOk result (λ q. q ≡ record { sub = top; sup = class.now; on = on }) }
{
    let sup = class.try_clone(alloc)?;
    Ok(Query {
        sub: Concept { node: Node::Top },
        sup,
        on,
    })
}
