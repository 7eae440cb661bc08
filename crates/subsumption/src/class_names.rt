// Lists of classes as text.
ghost use Rattle.std.specs.Prelude.{◌≡◌, ◌<◌, ◌++◌, OnOk, OnErr, IsTrue, length};
ghost use Rattle.ofn_writer.specs.Canonical.{class_text};
ghost use Rattle.subsumption.specs.ClassNames.{are_listed, names_text, names_or_thing_text};

use shq_terms::{NoMemory, Ontology};

/// Puts classes last, each after one blank, with their names as full IRIs between `<` and `>`; where there is none,
/// `owl:Thing`.
///
/// # Errors
///
/// Out of memory. Nothing is put then.
pub fn put_names_or_thing(
    out: &mut Vec<u8>,
    classes: &[u32],
    ontology: &Ontology,
) -> Result<(), NoMemory>
    requires { IsTrue (are_listed (length ontology.now.classes) classes.now) }
    ensures text { OnOk result (out.new.items ≡ out.old.items ++ names_or_thing_text ontology.now classes.now) }
    ensures unchanged { OnErr result (out.new.items ≡ out.old.items) }
{
    if classes.is_empty() {
        put(out, b" owl:Thing")
    } else {
        put_names(out, classes, ontology)
    }
}

/// Puts classes last, each after one blank, with their names as full IRIs between `<` and `>`.
///
/// # Errors
///
/// Out of memory. Nothing is put then.
pub fn put_names(out: &mut Vec<u8>, classes: &[u32], ontology: &Ontology) -> Result<(), NoMemory>
    requires { IsTrue (are_listed (length ontology.now.classes) classes.now) }
    ensures text { OnOk result (out.new.items ≡ out.old.items ++ names_text ontology.now classes.now) }
    ensures unchanged { OnErr result (out.new.items ≡ out.old.items) }
{
    let alloc = *out.allocator();
    let mut text = Vec::new(alloc);
    put_each_name(&mut text, classes, ontology)?;
    put(out, &text)
}

fn put_each_name(out: &mut Vec<u8>, classes: &[u32], ontology: &Ontology) -> Result<(), NoMemory>
    requires { IsTrue (are_listed (length ontology.now.classes) classes.now) }
    ensures { OnOk result (out.new.items ≡ out.old.items ++ names_text ontology.now classes.now) }
{
    for class in classes {
        put(out, b" ")?;
        put_class(out, *class, ontology)?;
    }
    Ok(())
}

fn put_class(out: &mut Vec<u8>, class: u32, ontology: &Ontology) -> Result<(), NoMemory>
    requires { class < length ontology.now.classes }
    ensures { OnOk result (out.new.items ≡ out.old.items ++ class_text ontology.now class) }
{
    put(out, b"<")?;
    put(out, ontology.class_name(class).as_bytes())?;
    put(out, b">")
}

/// Puts bytes last.
///
/// # Errors
///
/// Out of memory. Nothing is put then.
pub fn put(out: &mut Vec<u8>, bytes: &[u8]) -> Result<(), NoMemory>
    ensures text { OnOk result (out.new.items ≡ out.old.items ++ bytes.now) }
    ensures unchanged { OnErr result (out.new.items ≡ out.old.items) }
{
    out.extend_from_slice(bytes)?;
    Ok(())
}
