// The classification of an ontology.
ghost use Rattle.std.specs.Prelude.{◌≡◌, false, [], IfOk, IfErr, OnOk};
ghost use Rattle.std.specs.List.{list_any};
ghost use Rattle.subsumption.specs.Limits.{IsOntologyInLimit};
ghost use Rattle.subsumption.specs.Entries.{is_spent};
ghost use Rattle.subsumption.specs.HonestLog.{IsClassificationLog};
ghost use Rattle.subsumption.specs.LogEnds.{all_in_none, BeginsWith};
ghost use Rattle.subsumption.specs.Excluded.{AsksNoExcluded};
ghost use Rattle.subsumption.specs.Stops.{IsStop};
ghost use Rattle.classifier.specs.ClassificationClassified.{IsClassified};

use shq_terms::Ontology;
use std::alloc::Global;
use subsumption::{Oracle, Relation, Stop, settle};

/// Which class of the ontology is included in which, by all of its axioms (OWL 2 Direct Semantics, section 2.5). The
/// oracle is one for this ontology that was asked nothing yet. The log shows each pair. The first question is whether
/// `owl:Thing` is included in `owl:Nothing`, and nothing is asked whose answer follows from the answers before, be it
/// yes or no.
///
/// # Errors
/// The budget of the oracle was spent in the middle of a test, which is the last of the log; or memory was refused, and
/// no test spent the budget. The log is honest in each case, and asks nothing that follows.
pub fn classify(
    alloc: Global,
    oracle: &mut Oracle<'_>,
    ontology: &Ontology,
) -> Result<Relation, Stop>
    requires same { oracle.old.ontology ≡ ontology.now }
    requires unlogged { oracle.old.log ≡ [] }
    requires in_limit { IsOntologyInLimit ontology.now }

    ensures classified { IfOk result (IsClassified ontology.now oracle.new.log) }
    ensures unspent { OnOk result (list_any is_spent oracle.new.log ≡ false) }
    ensures stopped { IfErr result (IsStop oracle.old.budget oracle.new.log) }
    ensures honest { IsClassificationLog ontology.now oracle.old.budget oracle.new.log }
    ensures fresh { AsksNoExcluded oracle.new.log }
    ensures first { BeginsWith all_in_none oracle.new.log }

    ensures same_ontology { oracle.new.ontology ≡ oracle.old.ontology }
    ensures same_budget { oracle.new.budget ≡ oracle.old.budget }
{
    settle(alloc, oracle, ontology)
}
