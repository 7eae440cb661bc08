// The text of a model, as it stands in a certificate.
ghost use Rattle.std.specs.Prelude.{◌≡◌, ◌<◌, ◌≤◌, map, length, nat_eq, position, All, Some, IfOk, IfErr, OnOk, IfSome};
ghost use Rattle.std.specs.Prelude.{codes};
ghost use Rattle.certificate_lines.specs.Lines.{bytes_of};
ghost use Rattle.certificate_lines.specs.Malformed.{IsFaultOf, IsFaultAt, IsFaultOfLine};
ghost use Rattle.finite_model.specs.ModelText.{element_in, elements_from, pair_at, pair_in, pair_from, pairs_in};
ghost use Rattle.finite_model.specs.ModelText.{subject_in, class_line_in, role_line_in, placed_in, individual_line_in};
ghost use Rattle.finite_model.specs.ModelText.{with_class, with_role, with_placed, with_elements, with_pairs};
ghost use Rattle.finite_model.specs.ModelText.{is_role_line, is_individual_line, class_read, role_read};
ghost use Rattle.finite_model.specs.ModelText.{individual_read, ReadsClass, ReadsRole, ReadsIndividual};
ghost use Rattle.finite_model.specs.ModelText.{model_line_read, model_body, size_line, model_of};
ghost use Rattle.finite_model.specs.Malformed.{malformed_model_line, malformed_in_model};
ghost use Rattle.finite_model.specs.BodyRead.{body_of, class_of, role_of};

use crate::{Interp, ModelFault};
use certificate_lines::{clamped_line, first_unblank, iri, number, words};
use shq_terms::Ontology;
use std::alloc::Global;
use std::collections::BTreeSet;

/// The model whose text these lines are: `model N`, lines `class NAME X ..`, `role NAME X,Y ..` and `individual NAME X`
/// in any order, the line `end`, and blank lines. A name is the full IRI of a listed class, role or individual between
/// `<` and `>`, and has one line at most as a class, one as a role and one as an individual. Elements are below N and
/// ascend strictly on their line. Pairs ascend strictly by the first element and then by the second. A line
/// `class NAME` without an element is malformed, and so is a line `role NAME` without a pair: what is empty has no
/// line. An individual without a line is the element 0.
///
/// # Errors
///
/// `Malformed` exactly where the lines are no such text, and `NoMemory`. The first of the lines has the number 2. The
/// malformed line is the first with which no text begins, or the line after the last where a text begins with them all.
/// After an error nothing of what was read is left, and the ontology and the lines are as they were.
pub fn read_text(alloc: Global, lines: &[&[u8]], ontology: &Ontology) -> Result<Interp, ModelFault>
    ensures model { IfOk result (λ k. model_of ontology.now (bytes_of lines.now) ≡ Some k) }
    ensures fault { IfErr result (IsFaultOf (model_of ontology.now (bytes_of lines.now))) }
    ensures line { IfErr result (IsFaultOfLine (malformed_model_line ontology.now (bytes_of lines.now))) }
{
    if lines.is_empty() {
        return Err(ModelFault::Malformed(2));
    }
    let first = words(alloc, lines[0])?;
    let Some(size) = read_size(&first) else {
        return Err(ModelFault::Malformed(2));
    };
    let body = BodyRead {
        classes: BTreeSet::new(alloc),
        roles: BTreeSet::new(alloc),
        individuals: BTreeSet::new(alloc),
        model: Interp::new(alloc, size),
    };
    read_body(alloc, &lines[1..], ontology, body)
}

fn read_size(words: &[&[u8]]) -> Option<u32>
    ensures size { result ≡ size_line (bytes_of words.now) }
    ensures some { IfSome result (λ n. 1 ≤ n) }
{
    match words {
        [keyword, size] if *keyword == b"model".as_slice() => match number(size) {
            Some(0) | None => None,
            Some(size) => Some(size),
        },
        _ => None,
    }
}

// The classes, roles and individuals that had a line, and the model so far.
#[derive(Drop)]
pub(crate) struct BodyRead {
    classes: BTreeSet<u32>,
    roles: BTreeSet<u32>,
    individuals: BTreeSet<u32>,
    model: Interp,
}

fn read_body(
    alloc: Global,
    lines: &[&[u8]],
    ontology: &Ontology,
    mut body: BodyRead,
) -> Result<Interp, ModelFault>
    ensures model { IfOk result (λ k. model_body ontology.now (body_of body) (bytes_of lines.now) ≡ Some k) }
    ensures fault { IfErr result (IsFaultOf (model_body ontology.now (body_of body) (bytes_of lines.now))) }
    ensures line { IfErr result (IsFaultOfLine (malformed_in_model ontology.now (body_of body) (bytes_of lines.now))) }
{
    for index in 0..lines.len() {
        if lines[index] == b"end".as_slice() {
            return match first_unblank(&lines[index + 1..], index + 4) {
                None => Ok(body.model),
                Some(number) => Err(ModelFault::Malformed(clamped_line(number))),
            };
        }
        read_line(
            alloc,
            lines[index],
            clamped_line(index + 3),
            ontology,
            &mut body,
        )?;
    }
    Err(ModelFault::Malformed(clamped_line(lines.len() + 3)))
}

// Reads one line more, whose number is given.
fn read_line(
    alloc: Global,
    line: &[u8],
    number: u32,
    ontology: &Ontology,
    body: &mut BodyRead,
) -> Result<(), ModelFault>
    ensures read { OnOk result (model_line_read ontology.now (body_of body.old) line.now ≡ Some (body_of body.new)) }
    ensures fault { IfErr result (IsFaultAt number (model_line_read ontology.now (body_of body.old) line.now)) }
{
    let words = words(alloc, line)?;
    if is_role_line(&words) {
        add_role_line(alloc, &words, number, ontology, body)
    } else if is_individual_line(&words) {
        add_individual_line(&words, number, ontology, body)
    } else {
        add_class_line(alloc, &words, number, ontology, body)
    }
}

fn is_role_line(words: &[&[u8]]) -> bool
    ensures { result ≡ is_role_line (bytes_of words.now) }
{
    !words.is_empty() && words[0] == b"role".as_slice()
}

fn is_individual_line(words: &[&[u8]]) -> bool
    ensures { result ≡ is_individual_line (bytes_of words.now) }
{
    !words.is_empty() && words[0] == b"individual".as_slice()
}

fn add_class_line(
    alloc: Global,
    words: &[&[u8]],
    number: u32,
    ontology: &Ontology,
    body: &mut BodyRead,
) -> Result<(), ModelFault>
    ensures read { OnOk result (ReadsClass ontology.now (bytes_of words.now) (body_of body.old) (body_of body.new)) }
    ensures fault { IfErr result (IsFaultAt number (class_read ontology.now (body_of body.old) (bytes_of words.now))) }
{
    let line = read_class_line(alloc, words, number, ontology, body.model.size())?;
    put_class_line(body, number, &line)
}

fn add_role_line(
    alloc: Global,
    words: &[&[u8]],
    number: u32,
    ontology: &Ontology,
    body: &mut BodyRead,
) -> Result<(), ModelFault>
    ensures read { OnOk result (ReadsRole ontology.now (bytes_of words.now) (body_of body.old) (body_of body.new)) }
    ensures fault { IfErr result (IsFaultAt number (role_read ontology.now (body_of body.old) (bytes_of words.now))) }
{
    let line = read_role_line(alloc, words, number, ontology, body.model.size())?;
    put_role_line(body, number, &line)
}

fn add_individual_line(
    words: &[&[u8]],
    number: u32,
    ontology: &Ontology,
    body: &mut BodyRead,
) -> Result<(), ModelFault>
    ensures read { OnOk result
        (ReadsIndividual ontology.now (bytes_of words.now) (body_of body.old) (body_of body.new)) }
    ensures fault { IfErr result
        (IsFaultAt number (individual_read ontology.now (body_of body.old) (bytes_of words.now))) }
{
    let Some(placed) = read_individual_line(words, ontology, body.model.size()) else {
        return Err(ModelFault::Malformed(number));
    };
    put_placed(body, number, placed)
}

// A class with its elements.
#[derive(Drop)]
pub(crate) struct ClassRead {
    class: u32,
    elements: Vec<u32>,
}

// A pair of elements.
#[derive(Clone, Copy, Debug)]
pub(crate) struct Pair {
    from: u32,
    to: u32,
}

// A role with its pairs.
#[derive(Drop)]
pub(crate) struct RoleRead {
    role: u32,
    pairs: Vec<Pair>,
}

// An individual with its element.
#[derive(Clone, Copy, Debug)]
pub(crate) struct Placed {
    individual: u32,
    element: u32,
}

fn put_class_line(body: &mut BodyRead, number: u32, line: &ClassRead) -> Result<(), ModelFault>
    requires { All (λ x. x < body.old.model.size) line.now.elements.items }
    ensures read { OnOk result (with_class (body_of body.old) (class_of line.now) ≡ Some (body_of body.new)) }
    ensures fault { IfErr result (IsFaultAt number (with_class (body_of body.old) (class_of line.now))) }
{
    if body.classes.contains(&line.class) {
        return Err(ModelFault::Malformed(number));
    }
    body.classes.insert(line.class)?;
    put_elements(&mut body.model, line.class, &line.elements)
}

fn put_role_line(body: &mut BodyRead, number: u32, line: &RoleRead) -> Result<(), ModelFault>
    requires { All (λ p. (p.from < body.old.model.size) × (p.to < body.old.model.size)) line.now.pairs.items }
    ensures read { OnOk result (with_role (body_of body.old) (role_of line.now) ≡ Some (body_of body.new)) }
    ensures fault { IfErr result (IsFaultAt number (with_role (body_of body.old) (role_of line.now))) }
{
    if body.roles.contains(&line.role) {
        return Err(ModelFault::Malformed(number));
    }
    body.roles.insert(line.role)?;
    put_pairs(&mut body.model, line.role, &line.pairs)
}

fn put_placed(body: &mut BodyRead, number: u32, placed: Placed) -> Result<(), ModelFault>
    requires { placed.element < body.old.model.size }
    ensures read { OnOk result (with_placed (body_of body.old) placed ≡ Some (body_of body.new)) }
    ensures fault { IfErr result (IsFaultAt number (with_placed (body_of body.old) placed)) }
{
    if body.individuals.contains(&placed.individual) {
        return Err(ModelFault::Malformed(number));
    }
    body.individuals.insert(placed.individual)?;
    body.model
        .put_individual(placed.individual, placed.element)?;
    Ok(())
}

#[tactic(auto, using(certificate_lines::proofs::Borrowed::lines_drop))]
fn read_class_line(
    alloc: Global,
    words: &[&[u8]],
    number: u32,
    ontology: &Ontology,
    size: u32,
) -> Result<ClassRead, ModelFault>
    ensures below { IfOk result (λ c. All (λ x. x < size) c.elements.items) }
    ensures line { IfOk result (λ c. class_line_in ontology.now size (bytes_of words.now) ≡ Some (class_of c)) }
    ensures fault { IfErr result (IsFaultAt number (class_line_in ontology.now size (bytes_of words.now))) }
{
    let Some(class) = read_class(words, ontology) else {
        return Err(ModelFault::Malformed(number));
    };
    let elements = read_elements(alloc, words.split_at(2).1, number, size)?;
    Ok(ClassRead { class, elements })
}

#[tactic(auto, using(certificate_lines::proofs::Borrowed::lines_drop))]
fn read_role_line(
    alloc: Global,
    words: &[&[u8]],
    number: u32,
    ontology: &Ontology,
    size: u32,
) -> Result<RoleRead, ModelFault>
    ensures below { IfOk result (λ r. All (λ p. (p.from < size) × (p.to < size)) r.pairs.items) }
    ensures line { IfOk result (λ r. role_line_in ontology.now size (bytes_of words.now) ≡ Some (role_of r)) }
    ensures fault { IfErr result (IsFaultAt number (role_line_in ontology.now size (bytes_of words.now))) }
{
    let Some(role) = read_role(words, ontology) else {
        return Err(ModelFault::Malformed(number));
    };
    let pairs = read_pairs(alloc, words.split_at(2).1, number, size)?;
    Ok(RoleRead { role, pairs })
}

fn read_individual_line(words: &[&[u8]], ontology: &Ontology, size: u32) -> Option<Placed>
    ensures line { result ≡ individual_line_in ontology.now size (bytes_of words.now) }
    ensures below { IfSome result (λ p. p.element < size) }
{
    match words {
        [keyword, name, element] if *keyword == b"individual".as_slice() => {
            read_placed(name, element, ontology, size)
        }
        _ => None,
    }
}

fn read_placed(name: &[u8], element: &[u8], ontology: &Ontology, size: u32) -> Option<Placed>
    ensures placed { result ≡ placed_in ontology.now size name.now element.now }
    ensures below { IfSome result (λ p. p.element < size) }
{
    let individual = ontology.individual_of_bytes(iri(name)?)?;
    let element = read_element(element, 0, size)?;
    Some(Placed {
        individual,
        element,
    })
}

// The class that the first words name, where an element follows them.
fn read_class(words: &[&[u8]], ontology: &Ontology) -> Option<u32>
    ensures value { result ≡ subject_in (codes "class") ontology.now.classes (bytes_of words.now) }
    ensures long { IfSome result (λ _. 3 ≤ length words.now) }
{
    if words.len() < 3 || words[0] != b"class".as_slice() {
        return None;
    }
    ontology.class_of_bytes(iri(words[1])?)
}

// The role that the first words name, where a pair follows them.
fn read_role(words: &[&[u8]], ontology: &Ontology) -> Option<u32>
    ensures value { result ≡ subject_in (codes "role") ontology.now.roles (bytes_of words.now) }
    ensures long { IfSome result (λ _. 3 ≤ length words.now) }
{
    if words.len() < 3 || words[0] != b"role".as_slice() {
        return None;
    }
    ontology.role_of_bytes(iri(words[1])?)
}

fn read_elements(
    alloc: Global,
    words: &[&[u8]],
    number: u32,
    size: u32,
) -> Result<Vec<u32>, ModelFault>
    ensures below { IfOk result (λ xs. All (λ x. x < size) xs.items) }
    ensures elements { IfOk result (λ xs. elements_from 0 size (bytes_of words.now) ≡ Some xs.items) }
    ensures fault { IfErr result (IsFaultAt number (elements_from 0 size (bytes_of words.now))) }
{
    let mut elements = Vec::new(alloc);
    let mut low = 0;
    for word in words {
        let Some(x) = read_element(word, low, size) else {
            return Err(ModelFault::Malformed(number));
        };
        elements.push(x)?;
        low = x + 1;
    }
    Ok(elements)
}

fn read_element(word: &[u8], low: u32, size: u32) -> Option<u32>
    ensures { result ≡ element_in low size word.now }
{
    match number(word) {
        Some(x) if low <= x && x < size => Some(x),
        _ => None,
    }
}

fn read_pairs(
    alloc: Global,
    words: &[&[u8]],
    number: u32,
    size: u32,
) -> Result<Vec<Pair>, ModelFault>
    ensures below { IfOk result (λ ps. All (λ p. (p.from < size) × (p.to < size)) ps.items) }
    ensures pairs { IfOk result (λ ps. pairs_in size (bytes_of words.now) ≡ Some ps.items) }
    ensures fault { IfErr result (IsFaultAt number (pairs_in size (bytes_of words.now))) }
{
    let mut pairs = Vec::new(alloc);
    let mut low = Pair { from: 0, to: 0 };
    for word in words {
        let Some(pair) = read_pair_from(word, low, size) else {
            return Err(ModelFault::Malformed(number));
        };
        pairs.push(pair)?;
        low = Pair {
            from: pair.from,
            to: pair.to + 1,
        };
    }
    Ok(pairs)
}

// The pair that a word is, where it does not come before the least that is allowed.
fn read_pair_from(word: &[u8], low: Pair, size: u32) -> Option<Pair>
    ensures pair { result ≡ pair_from low size word.now }
    ensures below { IfSome result (λ p. (p.from < size) × (p.to < size)) }
{
    let pair = read_pair(word, size)?;
    if low.from < pair.from || (low.from == pair.from && low.to <= pair.to) {
        return Some(pair);
    }
    None
}

fn read_pair(word: &[u8], size: u32) -> Option<Pair>
    ensures pair { result ≡ pair_in size word.now }
    ensures below { IfSome result (λ p. (p.from < size) × (p.to < size)) }
{
    read_pair_at(word, size, comma(word)?)
}

fn comma(word: &[u8]) -> Option<usize>
    ensures place { result ≡ position (nat_eq 44) word.now }
    ensures within { IfSome result (λ n. n < length word.now) }
{
    word.iter().position(|byte| b',' == *byte)
}

fn read_pair_at(word: &[u8], size: u32, place: usize) -> Option<Pair>
    requires { place < length word.now }
    ensures pair { result ≡ pair_at size word.now place }
    ensures below { IfSome result (λ p. (p.from < size) × (p.to < size)) }
{
    let from = read_element(word.split_at(place).0, 0, size)?;
    let to = read_element(word.split_at(place + 1).1, 0, size)?;
    Some(Pair { from, to })
}

fn put_elements(model: &mut Interp, class: u32, elements: &[u32]) -> Result<(), ModelFault>
    requires { All (λ x. x < model.old.size) elements.now }
    ensures put { OnOk result (model.new ≡ with_elements class elements.now model.old) }
    ensures memory { IfErr result (λ e. e ≡ ModelFault.NoMemory) }
{
    for x in elements {
        model.put_class(class, *x)?;
    }
    Ok(())
}

fn put_pairs(model: &mut Interp, role: u32, pairs: &[Pair]) -> Result<(), ModelFault>
    requires { All (λ p. (p.from < model.old.size) × (p.to < model.old.size)) pairs.now }
    ensures put { OnOk result (model.new ≡ with_pairs role pairs.now model.old) }
    ensures memory { IfErr result (λ e. e ≡ ModelFault.NoMemory) }
{
    for pair in pairs {
        model.put_pair(role, pair.from, pair.to)?;
    }
    Ok(())
}
