// The relation of the classes, and the text of their taxonomy.
ghost use Rattle.std.specs.Prelude.{◌≡◌, false, [], IfOk, IfErr, OnOk, length};
ghost use Rattle.std.specs.List.{list_any};
ghost use Rattle.job_inputs.specs.Limits.{IsOntologyInLimit};
ghost use Rattle.classifier.specs.Entries.{is_spent};
ghost use Rattle.classifier.specs.HonestLog.{IsClassificationLog};
ghost use Rattle.classifier.specs.Rows.{holds};
ghost use Rattle.classifier.specs.ClassificationClassified.{IsClassified};
ghost use Rattle.classifier.specs.Excluded.{AsksNoExcluded};
ghost use Rattle.classifier.specs.Stops.{IsStop};
ghost use Rattle.classification_jobs.specs.Taxonomies.{taxonomy_of};
ghost use Rattle.classification_jobs.specs.TaxonomyText.{taxonomy_text};
ghost use Rattle.job_inputs.specs.Answer.{text_bytes};

use crate::Taxonomy;
use classifier::{Oracle, Relation, RunLog, Stop, classify};
use job_inputs::Text;
use shq_terms::{NoMemory, Ontology};
use std::alloc::Global;
use std::mem;

/// Which class of the ontology is included in which, within a budget of steps.
///
/// # Errors
///
/// The budget was spent, or out of memory.
pub(crate) fn relation_of(
    alloc: Global,
    budget: u32,
    ontology: &Ontology,
    log: &mut RunLog,
) -> Result<Relation, Stop>
    requires in_limit { IsOntologyInLimit ontology.now }
    requires unlogged { log.old ≡ [] }
    ensures classified { IfOk result (IsClassified ontology.now log.new) }
    ensures unspent { OnOk result (list_any is_spent log.new ≡ false) }
    ensures stopped { IfErr result (IsStop budget log.new) }
    ensures honest { IsClassificationLog ontology.now budget log.new }
    ensures fresh { AsksNoExcluded log.new }
{
    let begun = mem::replace(log, RunLog::new(alloc));
    let mut oracle = Oracle::new(alloc, ontology, budget, begun);
    let outcome = classify(alloc, &mut oracle, ontology);
    *log = oracle.into_log();
    outcome
}

/// The text of the taxonomy of a relation, with the names of the ontology.
///
/// # Errors
///
/// Out of memory.
pub(crate) fn text_of(
    alloc: Global,
    relation: Relation,
    ontology: &Ontology,
) -> Result<Text, NoMemory>
    requires { relation.count ≡ length ontology.now.classes }
    ensures { IfOk result
        (λ text. text_bytes text
        ≡ taxonomy_text ontology.now (taxonomy_of (length ontology.now.classes) (holds relation))) }
{
    let taxonomy = Taxonomy::of(alloc, &relation)?;
    let mut out = Vec::new(alloc);
    taxonomy.text(&mut out, ontology)?;
    Ok(Text::Bytes(out))
}
