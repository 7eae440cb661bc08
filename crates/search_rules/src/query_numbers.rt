// The numbers of the two concepts that a query asks of, and the tables that have them.
ghost use Rattle.std.specs.Prelude.{◌≡◌, IsTrue, IfOk, OnOk, OnErr};
ghost use Rattle.calculus_specs.specs.Shape.{IsTable};
ghost use Rattle.ontology_limits.specs.Steps.{is_transitive};
ghost use Rattle.ontology_limits.specs.Paths.{is_below};
ghost use Rattle.ontology_limits.specs.Counts.{has_counts_within};
ghost use Rattle.ontology_limits.specs.Numbers.{Extends};
ghost use Rattle.absorption.specs.Closed.{IsClosed};
ghost use Rattle.search_rules.specs.Queries.{IsFound};
ghost use Rattle.search_rules.specs.Tables.{AreNumberLists};

use crate::NoMemory;
use crate::number_tables::NumberTables;
use absorption::{RowTable, close};
use ontology_limits::{Concepts, RoleBox};
use shq_terms::Query;
use std::alloc::Global;

// The numbers of the two concepts that a query asks of, and new tables if the table of concepts has grown.
#[derive(Drop)]
pub(crate) struct QueryNumbers {
    // That of its subclass.
    pub(crate) sub: u32,
    // That of the complement of its superclass.
    pub(crate) not_sup: u32,
    // The tables of all concepts. There are none if the concepts are as before.
    pub(crate) tables: Option<NumberTables>,
}

// Looks both concepts up, and puts what is not there. If memory is refused, the table of concepts is as before.
pub(crate) fn query_numbers(
    alloc: Global,
    concepts: &mut Concepts,
    roles: &RoleBox,
    rows: &RowTable,
    query: &Query,
) -> Result<QueryNumbers, NoMemory>
    requires sub { IsTrue (has_counts_within 100 query.now.sub) }
    requires sup { IsTrue (has_counts_within 100 query.now.sup) }
    requires closed { IsClosed (is_below roles.now) (is_transitive roles.now) concepts.old }
    ensures found { IfOk result (IsFound concepts.old concepts.new roles.now rows.now.at_names query.now) }
    ensures same { OnErr result (concepts.new ≡ concepts.old) }
{
    let count = concepts.len();
    let outcome = put_query(alloc, concepts, roles, rows, query);
    if outcome.is_err() {
        concepts.truncate(count);
    }
    outcome
}

fn put_query(
    alloc: Global,
    concepts: &mut Concepts,
    roles: &RoleBox,
    rows: &RowTable,
    query: &Query,
) -> Result<QueryNumbers, NoMemory>
    requires sub { IsTrue (has_counts_within 100 query.now.sub) }
    requires sup { IsTrue (has_counts_within 100 query.now.sup) }
    requires closed { IsClosed (is_below roles.now) (is_transitive roles.now) concepts.old }
    ensures found { IfOk result (IsFound concepts.old concepts.new roles.now rows.now.at_names query.now) }
    ensures kept { Extends concepts.old concepts.new }
{
    let count = concepts.len();
    let sub = concepts.intern(&query.sub)?;
    let not_sup = concepts.intern_complement(&query.sup)?;
    if concepts.len() == count {
        return Ok(QueryNumbers {
            sub,
            not_sup,
            tables: None,
        });
    }
    let tables = closed_tables(alloc, concepts, roles, rows)?;
    Ok(QueryNumbers {
        sub,
        not_sup,
        tables: Some(tables),
    })
}

// Closes the concepts, and makes their tables.
pub(crate) fn closed_tables(
    alloc: Global,
    concepts: &mut Concepts,
    roles: &RoleBox,
    rows: &RowTable,
) -> Result<NumberTables, NoMemory>
    ensures tables { IfOk result (AreNumberLists concepts.new roles.now rows.now.at_names) }
    ensures closed { OnOk result (IsClosed (is_below roles.now) (is_transitive roles.now) concepts.new) }
    ensures kept { Extends concepts.old concepts.new }
    ensures table { IsTable concepts.new }
{
    close(alloc, concepts, roles)?;
    let tables = NumberTables::build(alloc, concepts, roles, rows)?;
    Ok(tables)
}
