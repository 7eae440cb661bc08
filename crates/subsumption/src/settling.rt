// The questions until each pair is settled.
ghost use Rattle.std.specs.Prelude.{◌≡◌, false, [], IfOk, IfErr, OnOk};
ghost use Rattle.std.specs.List.{list_any};
ghost use Rattle.shq_oracle.specs.Limits.{IsOntologyInLimit};
ghost use Rattle.shq_oracle.specs.Entries.{is_spent};
ghost use Rattle.shq_oracle.specs.HonestLog.{IsClassificationLog};
ghost use Rattle.subsumption.specs.LogEnds.{all_in_none, BeginsWith};
ghost use Rattle.subsumption.specs.Excluded.{AsksNoExcluded};
ghost use Rattle.subsumption.specs.Settled.{IsSettled};
ghost use Rattle.subsumption.specs.Stops.{IsStop};

use crate::Relation;
use crate::progress::Progress;
use crate::stop::Stop;
use crate::told::Told;
use shq_oracle::Oracle;
use shq_terms::Ontology;
use std::alloc::Global;

/// Asks until it is known of each two classes of the ontology whether one is included in the other, by all of its
/// axioms (OWL 2 Direct Semantics, section 2.5). The oracle is one for this ontology that was asked nothing yet. The
/// first question is whether `owl:Thing` is included in `owl:Nothing`, and nothing is asked whose answer follows from
/// the answers before, be it yes or no.
///
/// # Errors
/// The budget of the oracle was spent in the middle of a test, which is the last of the log; or memory was refused, and
/// no test spent the budget. The log is honest in each case, and asks nothing that follows.
pub fn settle(alloc: Global, oracle: &mut Oracle<'_>, ontology: &Ontology) -> Result<Relation, Stop>
    requires same { oracle.old.ontology ≡ ontology.now }
    requires unlogged { oracle.old.log ≡ [] }
    requires in_limit { IsOntologyInLimit ontology.now }

    ensures settled { IfOk result (IsSettled ontology.now oracle.new.log) }
    ensures unspent { OnOk result (list_any is_spent oracle.new.log ≡ false) }
    ensures stopped { IfErr result (IsStop oracle.old.budget oracle.new.log) }
    ensures honest { IsClassificationLog ontology.now oracle.old.budget oracle.new.log }
    ensures fresh { AsksNoExcluded oracle.new.log }
    ensures first { BeginsWith all_in_none oracle.new.log }

    ensures same_ontology { oracle.new.ontology ≡ oracle.old.ontology }
    ensures same_budget { oracle.new.budget ≡ oracle.old.budget }
{
    let told = Told::by(alloc, ontology)?;
    let mut progress = Progress::new(alloc, ontology)?;
    progress.settle_all(oracle, told.inclusions())?;
    Ok(progress.into_known())
}
