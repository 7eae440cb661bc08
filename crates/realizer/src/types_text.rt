// The text of a realization.
ghost use Rattle.std.specs.Prelude.{◌≡◌, ◌<◌, ◌++◌, OnOk, OnErr, IsTrue, length};
ghost use Rattle.std.specs.List.{list_all};
ghost use Rattle.realizer.specs.Realization.{type_line, type_lines, realization_text};
ghost use Rattle.realizer.specs.Listing.{line_is_listed, lines_are_listed, is_listed};

use crate::instance_lines::put_individual;
use crate::types::{TypeLine, Types};
use shq_terms::{NoMemory, Ontology};
use subsumption::{put, put_names_or_thing};

impl Types {
    /// Appends the text of the realization, with names as full IRIs between `<` and `>`.
    ///
    /// It is the line `inconsistent`, or these lines, with one blank between two items: `consistent`; and for each
    /// individual `individual`, its name, `types`, and the first class of each of its direct type groups, or
    /// `owl:Thing`.
    ///
    /// # Errors
    /// `NoMemory`. Nothing is appended then.
    pub fn text(&self, out: &mut Vec<u8>, ontology: &Ontology) -> Result<(), NoMemory>
        requires { IsTrue (is_listed (length ontology.now.classes) (length ontology.now.individuals) self.now) }
        ensures text { OnOk result (out.new.items ≡ out.old.items ++ realization_text ontology.now self.now) }
        ensures unchanged { OnErr result (out.new.items ≡ out.old.items) }
    {
        let alloc = *out.allocator();
        let mut text = Vec::new(alloc);
        put_types(&mut text, self, ontology)?;
        out.extend_from_slice(&text)?;
        Ok(())
    }
}

fn put_types(out: &mut Vec<u8>, types: &Types, ontology: &Ontology) -> Result<(), NoMemory>
    requires { IsTrue (is_listed (length ontology.now.classes) (length ontology.now.individuals) types.now) }
    ensures { OnOk result (out.new.items ≡ out.old.items ++ realization_text ontology.now types.now) }
{
    match types {
        Types::Inconsistent => put(out, b"inconsistent\n"),
        Types::Consistent(lines) => {
            put(out, b"consistent\n")?;
            put_lines(out, lines.lines(), ontology)
        }
    }
}

fn put_lines(out: &mut Vec<u8>, lines: &[TypeLine], ontology: &Ontology) -> Result<(), NoMemory>
    requires { IsTrue (lines_are_listed (length ontology.now.classes) (length ontology.now.individuals) lines.now) }
    ensures { OnOk result (out.new.items ≡ out.old.items ++ type_lines ontology.now lines.now) }
{
    for line in lines {
        put_line(out, line, ontology)?;
    }
    Ok(())
}

fn put_line(out: &mut Vec<u8>, line: &TypeLine, ontology: &Ontology) -> Result<(), NoMemory>
    requires { IsTrue (line_is_listed (length ontology.now.classes) (length ontology.now.individuals) line.now) }
    ensures { OnOk result (out.new.items ≡ out.old.items ++ type_line ontology.now line.now) }
{
    put(out, b"individual ")?;
    put_individual(out, line.individual(), ontology)?;
    put(out, b" types")?;
    put_names_or_thing(out, line.types(), ontology)?;
    put(out, b"\n")
}
