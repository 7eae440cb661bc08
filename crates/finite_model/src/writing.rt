// The text of a model, as it is written.
ghost use Rattle.std.specs.Prelude.{◌≡◌, ◌++◌, codes, decimal, IsTrue, IfOk, OnOk, OnErr};
ghost use Rattle.std.specs.List.{flat_map};
ghost use Rattle.finite_model.specs.ReadBack.{IsKept};
ghost use Rattle.finite_model.specs.Written.{element_text, pair_text, class_line, role_line, individual_line};
ghost use Rattle.finite_model.specs.Written.{class_lines, role_lines, individual_lines, model_text, uses_listed_names};

use crate::{Interp, NoMemory};
use shq_terms::Ontology;
use std::alloc::Global;

impl Interp {
    /// Appends the text of the interpretation, or nothing: `model N`, a line `class <IRI> X ..` for each class that has
    /// elements, a line `role <IRI> X,Y ..` for each role that has pairs, a line `individual <IRI> X` for each listed
    /// individual, and `end`, each with a line feed after it. Classes, roles and individuals stand in list order, and
    /// the items of a line ascend. Each class and role of which something was put is listed, and so is each individual
    /// that is another element than 0. The memory is `alloc`'s.
    ///
    /// What is kept is as the law of reading back asks ([`models_are_read_back`]): where names are listed once and are
    /// IRIs, the lines of the text stand for the interpretation again.
    #[tactic(auto, using(crate::proofs::Inside::is_kept))]
    pub fn text(
        &self,
        alloc: Global,
        out: &mut Vec<u8>,
        ontology: &Ontology,
    ) -> Result<(), NoMemory>
        requires { IsTrue (uses_listed_names ontology.now self.now) }
        ensures text { OnOk result (out.new.items ≡ out.old.items ++ model_text ontology.now self.now) }
        ensures unchanged { OnErr result (out.new.items ≡ out.old.items) }
        ensures kept { IsKept ontology.now self.now }
    {
        let _counts = self.counts();
        let text = self.whole_text(alloc, ontology)?;
        out.extend_from_slice(&text)?;
        Ok(())
    }

    fn whole_text(&self, alloc: Global, ontology: &Ontology) -> Result<Vec<u8>, NoMemory>
        ensures { IfOk result (λ text. text.items ≡ model_text ontology.now self.now) }
    {
        let mut text = Vec::from_slice(alloc, b"model ")?;
        push_number(alloc, &mut text, self.size())?;
        text.push(b'\n')?;
        self.push_classes(alloc, &mut text, ontology)?;
        self.push_roles(alloc, &mut text, ontology)?;
        self.push_individuals(alloc, &mut text, ontology)?;
        text.extend_from_slice(b"end")?;
        text.push(b'\n')?;
        Ok(text)
    }

    fn push_classes(
        &self,
        alloc: Global,
        text: &mut Vec<u8>,
        ontology: &Ontology,
    ) -> Result<(), NoMemory>
        ensures { OnOk result (text.new.items ≡ text.old.items ++ class_lines 0 ontology.now.classes self.now.members) }
    {
        for class in 0..ontology.class_count() {
            let elements = self.elements(alloc, class)?;
            push_class(alloc, text, ontology.class_name(class), &elements)?;
        }
        Ok(())
    }

    fn push_roles(
        &self,
        alloc: Global,
        text: &mut Vec<u8>,
        ontology: &Ontology,
    ) -> Result<(), NoMemory>
        ensures { OnOk result (text.new.items ≡ text.old.items ++ role_lines 0 ontology.now.roles self.now.links) }
    {
        for role in 0..ontology.role_count() {
            let pairs = self.pairs(alloc, role)?;
            push_role(alloc, text, ontology.role_name(role), &pairs)?;
        }
        Ok(())
    }

    fn push_individuals(
        &self,
        alloc: Global,
        text: &mut Vec<u8>,
        ontology: &Ontology,
    ) -> Result<(), NoMemory>
        ensures { OnOk result
            (text.new.items ≡ text.old.items ++ individual_lines 0 ontology.now.individuals self.now.individuals) }
    {
        for individual in 0..ontology.individual_count() {
            let x = self.individual(individual);
            push_individual(alloc, text, ontology.individual_name(individual), x)?;
        }
        Ok(())
    }
}

fn push_class(
    alloc: Global,
    text: &mut Vec<u8>,
    name: &str,
    elements: &[u32],
) -> Result<(), NoMemory>
    ensures { OnOk result (text.new.items ≡ text.old.items ++ class_line name.now elements.now) }
{
    if elements.is_empty() {
        return Ok(());
    }
    push_name(text, b"class", name)?;
    push_elements(alloc, text, elements)?;
    text.push(b'\n')?;
    Ok(())
}

fn push_role(
    alloc: Global,
    text: &mut Vec<u8>,
    name: &str,
    pairs: &[(u32, u32, u32)],
) -> Result<(), NoMemory>
    ensures { OnOk result (text.new.items ≡ text.old.items ++ role_line name.now pairs.now) }
{
    if pairs.is_empty() {
        return Ok(());
    }
    push_name(text, b"role", name)?;
    push_pairs(alloc, text, pairs)?;
    text.push(b'\n')?;
    Ok(())
}

fn push_individual(alloc: Global, text: &mut Vec<u8>, name: &str, x: u32) -> Result<(), NoMemory>
    ensures { OnOk result (text.new.items ≡ text.old.items ++ individual_line name.now x) }
{
    push_name(text, b"individual", name)?;
    push_element(alloc, text, x)?;
    text.push(b'\n')?;
    Ok(())
}

// Appends `KIND <IRI>`.
fn push_name(text: &mut Vec<u8>, kind: &[u8], name: &str) -> Result<(), NoMemory>
    ensures { OnOk result (text.new.items ≡ text.old.items ++ (kind.now ++ codes " <" ++ name.now ++ codes ">")) }
{
    text.extend_from_slice(kind)?;
    text.extend_from_slice(b" <")?;
    text.extend_from_slice(name.as_bytes())?;
    text.extend_from_slice(b">")?;
    Ok(())
}

fn push_elements(alloc: Global, text: &mut Vec<u8>, elements: &[u32]) -> Result<(), NoMemory>
    ensures { OnOk result (text.new.items ≡ text.old.items ++ flat_map element_text elements.now) }
{
    for x in elements {
        push_element(alloc, text, *x)?;
    }
    Ok(())
}

fn push_element(alloc: Global, text: &mut Vec<u8>, x: u32) -> Result<(), NoMemory>
    ensures { OnOk result (text.new.items ≡ text.old.items ++ element_text x) }
{
    text.push(b' ')?;
    push_number(alloc, text, x)
}

fn push_pairs(alloc: Global, text: &mut Vec<u8>, pairs: &[(u32, u32, u32)]) -> Result<(), NoMemory>
    ensures { OnOk result (text.new.items ≡ text.old.items ++ flat_map pair_text pairs.now) }
{
    for pair in pairs {
        push_pair(alloc, text, *pair)?;
    }
    Ok(())
}

fn push_pair(alloc: Global, text: &mut Vec<u8>, pair: (u32, u32, u32)) -> Result<(), NoMemory>
    ensures { OnOk result (text.new.items ≡ text.old.items ++ pair_text pair) }
{
    text.push(b' ')?;
    push_number(alloc, text, pair.1)?;
    text.push(b',')?;
    push_number(alloc, text, pair.2)
}

fn push_number(alloc: Global, text: &mut Vec<u8>, number: u32) -> Result<(), NoMemory>
    ensures { OnOk result (text.new.items ≡ text.old.items ++ decimal number) }
{
    let digits = format!(in alloc; "{number}")?;
    text.extend_from_slice(digits.as_bytes())?;
    Ok(())
}
