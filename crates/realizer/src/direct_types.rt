// From the classes of each individual to its direct types.
ghost use Rattle.std.specs.Prelude.{◌≡◌, IfOk};
ghost use Rattle.subsumption.specs.Rows.{holds};
ghost use Rattle.subsumption.specs.Groups.{is_first};
ghost use Rattle.subsumption.specs.ClassSets.{has_class, HoldsClasses};
ghost use Rattle.realizer.specs.Realization.{is_type, direct_types, type_lists};
ghost use Rattle.realizer.specs.TypeRows.{AreTypeRows, typed_by};

use crate::types::{TypeLine, TypeLines};
use axiom_sets::AxiomSet;
use shq_terms::NoMemory;
use std::alloc::Global;
use subsumption::{Relation, classes_between, first_classes, keep, lowest};

/// The direct types of so many individuals, of which each has one row: the set of its classes.
///
/// # Errors
///
/// Out of memory.
pub(crate) fn type_lines(
    alloc: Global,
    relation: &Relation,
    rows: &[AxiomSet],
    individuals: u32,
) -> Result<TypeLines, NoMemory>
    requires { AreTypeRows relation.now.count individuals rows.now }
    ensures { IfOk result
        (λ ts. ts ≡ type_lists relation.now.count (holds relation.now) individuals (typed_by rows.now)) }
{
    let between = classes_between(alloc, relation)?;
    let firsts = first_classes(alloc, relation, &between)?;
    lines_by(alloc, relation, &firsts, rows, individuals)
}

// The direct types, of which each is the first class of its group.
fn lines_by(
    alloc: Global,
    relation: &Relation,
    firsts: &AxiomSet,
    rows: &[AxiomSet],
    individuals: u32,
) -> Result<TypeLines, NoMemory>
    requires firsts { HoldsClasses relation.now.count (is_first relation.now.count (holds relation.now)) firsts.now }
    requires rows { AreTypeRows relation.now.count individuals rows.now }
    ensures { IfOk result
        (λ ts. ts ≡ type_lists relation.now.count (holds relation.now) individuals (typed_by rows.now)) }
{
    let mut lines = Vec::new(alloc);
    for individual in 0..individuals {
        let row = &rows[individual as usize];
        lines.push(type_line(alloc, relation, firsts, individual, row)?)?;
    }
    Ok(TypeLines::new(lines))
}

// The direct types of one individual.
fn type_line(
    alloc: Global,
    relation: &Relation,
    firsts: &AxiomSet,
    individual: u32,
    row: &AxiomSet,
) -> Result<TypeLine, NoMemory>
    requires firsts { HoldsClasses relation.now.count (is_first relation.now.count (holds relation.now)) firsts.now }
    requires row { HoldsClasses relation.now.count (has_class row.now) row.now }
    ensures { IfOk result (λ t. t
        ≡ record {
          individual = individual;
          types = direct_types relation.now.count (holds relation.now) (has_class row.now);
        }) }
{
    let groups = type_groups(relation, firsts, row)?;
    let types = lowest(alloc, relation, &groups)?;
    Ok(TypeLine::new(individual, types))
}

// The first classes of the groups of which an individual is an instance.
fn type_groups(relation: &Relation, firsts: &AxiomSet, row: &AxiomSet) -> Result<AxiomSet, NoMemory>
    requires firsts { HoldsClasses relation.now.count (is_first relation.now.count (holds relation.now)) firsts.now }
    requires row { HoldsClasses relation.now.count (has_class row.now) row.now }
    ensures { IfOk result
        (HoldsClasses relation.now.count (is_type relation.now.count (holds relation.now) (has_class row.now))) }
{
    let mut groups = firsts.try_clone()?;
    keep(&mut groups, row)?;
    Ok(groups)
}
