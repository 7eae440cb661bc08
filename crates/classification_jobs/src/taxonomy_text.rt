// The text of a taxonomy.
ghost use Rattle.std.specs.Prelude.{◌≡◌, ◌++◌, OnOk, OnErr, IsTrue, length};
ghost use Rattle.std.specs.List.{list_all};
ghost use Rattle.ofn_writer.specs.Canonical.{line};
ghost use Rattle.classifier.specs.ClassNames.{are_listed, names_text};
ghost use Rattle.classification_jobs.specs.TaxonomyText.{group_line, group_lines, hierarchy_text, taxonomy_text};
ghost use Rattle.classification_jobs.specs.Listing.{group_is_listed, hierarchy_is_listed, is_listed};

use crate::groups::{Group, Hierarchy, Taxonomy};
use classifier::{put, put_names, put_names_or_thing};
use shq_terms::{NoMemory, Ontology};

impl Taxonomy {
    /// Appends the text of the taxonomy, with the names of the ontology's classes as full IRIs between `<` and `>`.
    ///
    /// It is the line `inconsistent`, or these lines, with one blank between two items: `consistent`; `nothing` and the
    /// classes equal to `owl:Nothing`; `thing` and the classes equal to `owl:Thing`; and for each group `class`, its
    /// classes, `under`, and the first class of each group directly above it, or `owl:Thing`.
    ///
    /// # Errors
    ///
    /// `NoMemory`. Nothing is appended then.
    pub fn text(&self, out: &mut Vec<u8>, ontology: &Ontology) -> Result<(), NoMemory>
        requires { IsTrue (is_listed (length ontology.now.classes) self.now) }
        ensures text { OnOk result (out.new.items ≡ out.old.items ++ taxonomy_text ontology.now self.now) }
        ensures unchanged { OnErr result (out.new.items ≡ out.old.items) }
    {
        let alloc = *out.allocator();
        let mut text = Vec::new(alloc);
        put_taxonomy(&mut text, self, ontology)?;
        put_whole(out, &text)
    }
}

fn put_taxonomy(out: &mut Vec<u8>, taxonomy: &Taxonomy, ontology: &Ontology) -> Result<(), NoMemory>
    requires { IsTrue (is_listed (length ontology.now.classes) taxonomy.now) }
    ensures { OnOk result (out.new.items ≡ out.old.items ++ taxonomy_text ontology.now taxonomy.now) }
{
    match taxonomy {
        Taxonomy::Inconsistent => put(out, b"inconsistent\n"),
        Taxonomy::Consistent(hierarchy) => put_hierarchy(out, hierarchy, ontology),
    }
}

fn put_hierarchy(
    out: &mut Vec<u8>,
    hierarchy: &Hierarchy,
    ontology: &Ontology,
) -> Result<(), NoMemory>
    requires { IsTrue (hierarchy_is_listed (length ontology.now.classes) hierarchy.now) }
    ensures { OnOk result (out.new.items ≡ out.old.items ++ hierarchy_text ontology.now hierarchy.now) }
{
    put(out, b"consistent\n")?;
    put_line(out, b"nothing", hierarchy.nothing(), ontology)?;
    put_line(out, b"thing", hierarchy.thing(), ontology)?;
    put_groups(out, hierarchy.groups(), ontology)
}

// Puts a line of a word and classes last.
fn put_line(
    out: &mut Vec<u8>,
    word: &[u8],
    classes: &[u32],
    ontology: &Ontology,
) -> Result<(), NoMemory>
    requires { IsTrue (are_listed (length ontology.now.classes) classes.now) }
    ensures { OnOk result (out.new.items ≡ out.old.items ++ line (word.now ++ names_text ontology.now classes.now)) }
{
    put(out, word)?;
    put_names(out, classes, ontology)?;
    put(out, b"\n")
}

fn put_groups(out: &mut Vec<u8>, groups: &[Group], ontology: &Ontology) -> Result<(), NoMemory>
    requires { IsTrue (list_all (group_is_listed (length ontology.now.classes)) groups.now) }
    ensures { OnOk result (out.new.items ≡ out.old.items ++ group_lines ontology.now groups.now) }
{
    for group in groups {
        put_group(out, group, ontology)?;
    }
    Ok(())
}

fn put_group(out: &mut Vec<u8>, group: &Group, ontology: &Ontology) -> Result<(), NoMemory>
    requires { IsTrue (group_is_listed (length ontology.now.classes) group.now) }
    ensures { OnOk result (out.new.items ≡ out.old.items ++ group_line ontology.now group.now) }
{
    put(out, b"class")?;
    put_names(out, group.classes(), ontology)?;
    put(out, b" under")?;
    put_names_or_thing(out, group.parents(), ontology)?;
    put(out, b"\n")
}

// Puts a whole text last, or changes nothing.
fn put_whole(out: &mut Vec<u8>, text: &[u8]) -> Result<(), NoMemory>
    ensures put { OnOk result (out.new.items ≡ out.old.items ++ text.now) }
    ensures unchanged { OnErr result (out.new.items ≡ out.old.items) }
{
    out.extend_from_slice(text)?;
    Ok(())
}
