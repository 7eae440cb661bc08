// The text of a list of individuals.
ghost use Rattle.std.specs.Prelude.{◌≡◌, ◌<◌, ◌++◌, OnOk, OnErr, IsTrue, length};
ghost use Rattle.ofn_writer.specs.Canonical.{individual_text};
ghost use Rattle.subsumption.specs.ClassNames.{are_listed};
ghost use Rattle.realizer.specs.Instances.{instances_text, individual_lines};

use shq_terms::{NoMemory, Ontology};
use std::alloc::Global;
use subsumption::put;

/// Appends the text that lists the individuals: the line `instances` with their number, and for each a line with its
/// name as a full IRI between `<` and `>`.
///
/// # Errors
/// `NoMemory`. Nothing is appended then.
pub fn instances_text(
    alloc: Global,
    out: &mut Vec<u8>,
    found: &[u32],
    ontology: &Ontology,
) -> Result<(), NoMemory>
    requires { IsTrue (are_listed (length ontology.now.individuals) found.now) }
    ensures text { OnOk result (out.new.items ≡ out.old.items ++ instances_text ontology.now found.now) }
    ensures unchanged { OnErr result (out.new.items ≡ out.old.items) }
{
    let mut text = Vec::new(alloc);
    put_instances(alloc, &mut text, found, ontology)?;
    out.extend_from_slice(&text)?;
    Ok(())
}

fn put_instances(
    alloc: Global,
    out: &mut Vec<u8>,
    found: &[u32],
    ontology: &Ontology,
) -> Result<(), NoMemory>
    requires { IsTrue (are_listed (length ontology.now.individuals) found.now) }
    ensures { OnOk result (out.new.items ≡ out.old.items ++ instances_text ontology.now found.now) }
{
    let count = found.len();
    let digits = format!(in alloc; "{count}")?;
    put(out, b"instances ")?;
    put(out, digits.as_bytes())?;
    put(out, b"\n")?;
    put_individuals(out, found, ontology)
}

fn put_individuals(out: &mut Vec<u8>, found: &[u32], ontology: &Ontology) -> Result<(), NoMemory>
    requires { IsTrue (are_listed (length ontology.now.individuals) found.now) }
    ensures { OnOk result (out.new.items ≡ out.old.items ++ individual_lines ontology.now found.now) }
{
    for individual in found {
        put_individual(out, *individual, ontology)?;
        put(out, b"\n")?;
    }
    Ok(())
}

/// Puts the name of an individual last.
pub(crate) fn put_individual(
    out: &mut Vec<u8>,
    individual: u32,
    ontology: &Ontology,
) -> Result<(), NoMemory>
    requires { individual < length ontology.now.individuals }
    ensures { OnOk result (out.new.items ≡ out.old.items ++ individual_text ontology.now individual) }
{
    put(out, b"<")?;
    put(out, ontology.individual_name(individual).as_bytes())?;
    put(out, b">")
}
