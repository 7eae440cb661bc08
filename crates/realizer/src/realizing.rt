// The realization of an ontology.
ghost use Rattle.std.specs.Prelude.{◌≡◌, false, [], IsTrue, IfOk, IfErr, OnOk, length};
ghost use Rattle.std.specs.List.{list_any};
ghost use Rattle.subsumption.specs.Limits.{IsOntologyInLimit};
ghost use Rattle.subsumption.specs.Entries.{is_spent};
ghost use Rattle.subsumption.specs.HonestLog.{IsClassificationLog};
ghost use Rattle.subsumption.specs.Rows.{holds};
ghost use Rattle.subsumption.specs.Settled.{IsSettled};
ghost use Rattle.subsumption.specs.Stops.{IsStop};
ghost use Rattle.realizer.specs.Realization.{AreTypeLines, AreTypes};
ghost use Rattle.realizer.specs.RealizationLogs.{IsRealizationLog};
ghost use Rattle.realizer.specs.Listing.{lines_are_listed, is_listed};
ghost use Rattle.realizer.specs.ShownLogs.{ShowsTypes, SettlesClasses};

use crate::Halt;
use crate::direct_types::type_lines;
use crate::types::{TypeLines, Types};
use crate::typing::Typing;
use shq_terms::Ontology;
use std::alloc::Global;
use subsumption::{Oracle, Relation, settle};

/// The direct types of each individual of the ontology, by all of its axioms (OWL 2 Direct Semantics, section 2.5),
/// where the oracle is one for this ontology that was asked nothing yet: the groups of equal classes of which it is an
/// instance and that hold no other such group. It is settled first which class is included in which, and then, one
/// individual after the other, which classes it is in. The log shows both: of each two classes, and of each individual
/// and each listed class.
///
/// # Errors
/// The budget of the oracle was spent in the middle of a test, which is the last of the log; or memory was refused, and
/// no test spent the budget. The log is honest in each case, and asks nothing to which a chain of answers leads.
pub fn realize(alloc: Global, oracle: &mut Oracle<'_>, ontology: &Ontology) -> Result<Types, Halt>
    requires same { oracle.old.ontology ≡ ontology.now }
    requires unlogged { oracle.old.log ≡ [] }
    requires in_limit { IsOntologyInLimit ontology.now }

    ensures types { IfOk result (AreTypes ontology.now) }
    ensures shown { OnOk result (ShowsTypes ontology.now oracle.new.log) }
    ensures classes { OnOk result (SettlesClasses ontology.now oracle.new.log) }
    ensures listed { IfOk result
        (λ t. IsTrue (is_listed (length ontology.now.classes) (length ontology.now.individuals) t)) }
    ensures unspent { OnOk result (list_any is_spent oracle.new.log ≡ false) }
    ensures halted { IfErr result (IsStop oracle.old.budget oracle.new.log) }
    ensures honest { IsRealizationLog ontology.now oracle.old.budget oracle.new.log }

    ensures same_ontology { oracle.new.ontology ≡ oracle.old.ontology }
    ensures same_budget { oracle.new.budget ≡ oracle.old.budget }
{
    let relation = settle(alloc, oracle, ontology)?;
    let outcome = types_by(alloc, oracle, ontology, &relation);
    drop(relation);
    outcome
}

// The direct types, where it is settled which class is included in which.
fn types_by(
    alloc: Global,
    oracle: &mut Oracle<'_>,
    ontology: &Ontology,
    relation: &Relation,
) -> Result<Types, Halt>
    requires same { oracle.old.ontology ≡ ontology.now }
    requires in_limit { IsOntologyInLimit ontology.now }
    requires settled { IsSettled ontology.now oracle.old.log relation.now }
    requires honest { IsClassificationLog ontology.now oracle.old.budget oracle.old.log }
    requires goes_on { list_any is_spent oracle.old.log ≡ false }
    ensures types { IfOk result (AreTypes ontology.now) }
    ensures shown { OnOk result (ShowsTypes ontology.now oracle.new.log) }
    ensures classes { OnOk result (IsSettled ontology.now oracle.new.log relation.now) }
    ensures listed { IfOk result
        (λ t. IsTrue (is_listed (length ontology.now.classes) (length ontology.now.individuals) t)) }
    ensures unspent { OnOk result (list_any is_spent oracle.new.log ≡ false) }
    ensures halted { IfErr result (IsStop oracle.old.budget oracle.new.log) }
    ensures honest { IsRealizationLog ontology.now oracle.old.budget oracle.new.log }
    ensures same_ontology { oracle.new.ontology ≡ oracle.old.ontology }
    ensures same_budget { oracle.new.budget ≡ oracle.old.budget }
{
    let count = relation.class_count();
    if relation.relates(count, count + 1) {
        return Ok(Types::Inconsistent);
    }
    let lines = lines_by(alloc, oracle, ontology, relation)?;
    Ok(Types::Consistent(lines))
}

// Those of an ontology that has models.
fn lines_by(
    alloc: Global,
    oracle: &mut Oracle<'_>,
    ontology: &Ontology,
    relation: &Relation,
) -> Result<TypeLines, Halt>
    requires same { oracle.old.ontology ≡ ontology.now }
    requires in_limit { IsOntologyInLimit ontology.now }
    requires settled { IsSettled ontology.now oracle.old.log relation.now }
    requires honest { IsClassificationLog ontology.now oracle.old.budget oracle.old.log }
    requires goes_on { list_any is_spent oracle.old.log ≡ false }
    ensures lines { IfOk result (AreTypeLines ontology.now (holds relation.now)) }
    ensures shown { OnOk result (ShowsTypes ontology.now oracle.new.log) }
    ensures classes { OnOk result (IsSettled ontology.now oracle.new.log relation.now) }
    ensures listed { IfOk result
        (λ ts. IsTrue (lines_are_listed (length ontology.now.classes) (length ontology.now.individuals) ts)) }
    ensures unspent { OnOk result (list_any is_spent oracle.new.log ≡ false) }
    ensures halted { IfErr result (IsStop oracle.old.budget oracle.new.log) }
    ensures honest { IsRealizationLog ontology.now oracle.old.budget oracle.new.log }
    ensures same_ontology { oracle.new.ontology ≡ oracle.old.ontology }
    ensures same_budget { oracle.new.budget ≡ oracle.old.budget }
{
    let mut typing = Typing::new(alloc, ontology)?;
    typing.settle_all(oracle, relation)?;
    let lines = type_lines(alloc, relation, &typing.rows, ontology.individual_count())?;
    Ok(lines)
}
