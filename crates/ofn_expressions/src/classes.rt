// Class expressions.
ghost use Rattle.std.specs.Prelude.{◌≡◌, ◌≢◌, IfErr, ◌<◌, ◌≤◌, ◌∷◌, ◌++◌, [], IfOk, OnOk, length, true};
ghost use Rattle.shq_terms.specs.Concept.{parts_of};
ghost use Rattle.ofn_tree.specs.Items.{items_of};
ghost use Rattle.ofn_expressions.specs.Counts.{Grows};
ghost use Rattle.ofn_expressions.specs.Walk.{Tested};
ghost use Rattle.ofn_expressions.specs.Keywords.{class_keyword};
ghost use Rattle.ofn_expressions.specs.declared.keywords.Keyword.TheVariants.{Class};
ghost use Rattle.ofn_expressions.specs.Classes.{class_tests, classes_tests, head_tests, operands_tests};
ghost use Rattle.ofn_expressions.specs.Classes.{restriction_tests, cardinality_tests, text_group_tests};
ghost use Rattle.ofn_expressions.specs.Classes.{class_name_tests, declared_class_tests, listed_class, Means, MeanAll};
ghost use Rattle.ofn_expressions.specs.Classes.{MeansName, MeansGroup, MeansRestriction, MeansCardinality, MeansFiller};
ghost use Rattle.ofn_expressions.specs.Classes.{NamesClass, fits, node_count, quantified, bounded};

use crate::keywords::{Bound, ClassKeyword, Keyword, Quantifier, class_keyword};
use crate::names::{item_line, read_iri};
use crate::numbers::read_number;
use crate::{Prefixes, Reading, Refusal, read_role};
use ofn_tree::{Form, Tree};
use shq_terms::{Concept, ConceptList, NoMemory, Node};
use std::alloc::Global;

/// The class expression of an item.
///
/// # Errors
///
/// What is wrong first, in the order of the tests, and `NoMemory`. What was counted and listed before stays in `state`:
/// the names that were met first, and the nodes. No axiom is added.
#[cycle(classes)]
#[tactic(auto, using(crate::proofs::Cited::growing))]
pub fn read_class(
    alloc: Global,
    tree: &Tree<'_>,
    prefixes: &Prefixes,
    state: &mut Reading,
) -> Result<Concept, Refusal>
    ensures tests { Tested result state.old (class_tests prefixes.now tree.now) state.new }
    ensures grown { Grows state.old state.new }
    ensures value { IfOk result (Means prefixes.now state.new.counts tree.now) }
{
    match &tree.form {
        Form::Iri(_, _)
        | Form::Name(_, _)
        | Form::Literal(_)
        | Form::Sign(_, _)
        | Form::Group(None, _, _) => read_class_name(alloc, tree, prefixes, state),
        Form::Group(Some(text), items, line) => {
            read_group(alloc, text, items, *line, prefixes, state)
        }
    }
}

/// The class that an item names, as a class expression.
///
/// # Errors
///
/// What is wrong first, in the order of the tests, and `NoMemory`. What was counted and listed before stays in `state`:
/// the names that were met first, and the nodes. No axiom is added.
#[tactic(auto, using(crate::proofs::Cited::walking))]
pub fn read_class_name(
    alloc: Global,
    tree: &Tree<'_>,
    prefixes: &Prefixes,
    state: &mut Reading,
) -> Result<Concept, Refusal>
    ensures tests { Tested result state.old (class_name_tests prefixes.now tree.now) state.new }
    ensures grown { Grows state.old state.new }
    ensures value { IfOk result (MeansName prefixes.now state.new.counts tree.now) }
{
    let iri = read_iri(alloc, tree, prefixes)?;
    let line = item_line(tree);
    state.count_nodes(line, 1)?;
    list_class(&iri, line, state)
}

#[tactic(auto, using(crate::proofs::Cited::placing), unfolding(crate::specs::Classes::is_spelled))]
fn list_class(iri: &str, line: u32, state: &mut Reading) -> Result<Concept, Refusal>
    ensures tests { Tested result state.old (listed_class line iri.now) state.new }
    ensures grown { Grows state.old state.new }
    ensures value { IfOk result (NamesClass state.new.counts iri.now) }
{
    match iri {
        "http://www.w3.org/2002/07/owl#Thing" => Ok(Concept { node: Node::Top }),
        "http://www.w3.org/2002/07/owl#Nothing" => Ok(Concept { node: Node::Bottom }),
        _ => {
            let class = state.add_class(line, iri)?;
            Ok(Concept {
                node: Node::Name(class),
            })
        }
    }
}

/// Lists the class that an item declares, unless it is `owl:Thing` or `owl:Nothing`.
///
/// # Errors
///
/// What is wrong first, in the order of the tests, and `NoMemory`. What was counted and listed before stays in `state`:
/// the names that were met first, and the nodes. No axiom is added.
#[tactic(auto, using(crate::proofs::Cited::walking))]
pub fn declare_class(
    alloc: Global,
    tree: &Tree<'_>,
    prefixes: &Prefixes,
    state: &mut Reading,
) -> Result<(), Refusal>
    ensures tests { Tested result state.old (declared_class_tests prefixes.now tree.now) state.new }
    ensures grown { Grows state.old state.new }
{
    let iri = read_iri(alloc, tree, prefixes)?;
    let class = list_class(&iri, item_line(tree), state)?;
    drop(class);
    Ok(())
}

fn fits(keyword: ClassKeyword, count: usize) -> bool
    ensures { result ≡ fits keyword count }
{
    match keyword {
        ClassKeyword::Intersection | ClassKeyword::Union => count >= 2,
        ClassKeyword::Complement => count == 1,
        ClassKeyword::Restriction(_) => count == 2,
        ClassKeyword::Cardinality(_) => count == 2 || count == 3,
    }
}

fn node_count(keyword: ClassKeyword, count: usize) -> u32
    ensures { result ≡ node_count keyword count }
{
    match keyword {
        ClassKeyword::Cardinality(_) if count == 2 => 2,
        _ => 1,
    }
}

// The tests of a group that come before its items.
#[tactic(auto, using(crate::proofs::Cited::growing))]
fn read_head(
    text: &str,
    count: usize,
    line: u32,
    state: &mut Reading,
) -> Result<ClassKeyword, Refusal>
    ensures tests { Tested result state.old (head_tests (class_keyword text.now) line count) state.new }
    ensures grown { Grows state.old state.new }
    ensures keyword { IfOk result (λ k. (class_keyword text.now ≡ Class k) × (fits k count ≡ true)) }
    ensures takes_no_memory { IfErr result (λ e. e ≢ Refusal.NoMemory) }
{
    let keyword = match class_keyword(text) {
        Keyword::Class(keyword) => keyword,
        Keyword::Excluded(construct) => return Err(Refusal::Outside(line, construct)),
        Keyword::Unknown => return Err(Refusal::BadShape(line)),
    };
    state.count_nodes(line, node_count(keyword, count))?;
    if !fits(keyword, count) {
        return Err(Refusal::BadShape(line));
    }
    Ok(keyword)
}

#[cycle(classes)]
#[tactic(auto, using(crate::proofs::Cited::growing))]
fn read_group(
    alloc: Global,
    text: &str,
    items: &[Tree<'_>],
    line: u32,
    prefixes: &Prefixes,
    state: &mut Reading,
) -> Result<Concept, Refusal>
    ensures tests { Tested result state.old (text_group_tests prefixes.now text.now line items.now) state.new }
    ensures grown { Grows state.old state.new }
    ensures value { IfOk result (MeansGroup prefixes.now state.new.counts (class_keyword text.now) items.now) }
{
    let keyword = read_head(text, items.len(), line, state)?;
    read_operands(alloc, keyword, items, prefixes, state)
}

#[cycle(classes)]
#[tactic(auto, using(crate::proofs::Cited::growing))]
fn read_operands(
    alloc: Global,
    keyword: ClassKeyword,
    items: &[Tree<'_>],
    prefixes: &Prefixes,
    state: &mut Reading,
) -> Result<Concept, Refusal>
    requires { fits keyword (length items.now) ≡ true }
    ensures tests { Tested result state.old (operands_tests prefixes.now keyword items.now) state.new }
    ensures grown { Grows state.old state.new }
    ensures value { IfOk result (MeansGroup prefixes.now state.new.counts (Class keyword) items.now) }
{
    match keyword {
        ClassKeyword::Intersection => Ok(Concept {
            node: Node::And(read_operand_list(alloc, items, prefixes, state)?),
        }),
        ClassKeyword::Union => Ok(Concept {
            node: Node::Or(read_operand_list(alloc, items, prefixes, state)?),
        }),
        ClassKeyword::Complement => Ok(Concept {
            node: Node::Not(read_boxed(alloc, &items[0], prefixes, state)?),
        }),
        ClassKeyword::Restriction(quantifier) => {
            read_restriction(alloc, quantifier, &items[0], &items[1], prefixes, state)
        }
        ClassKeyword::Cardinality(bound) => {
            read_cardinality(
                alloc,
                bound,
                &items[0],
                &items[1],
                items.split_at(2).1,
                prefixes,
                state,
            )
        }
    }
}

#[cycle(classes)]
#[tactic(auto, using(crate::proofs::Cited::walking))]
fn read_restriction(
    alloc: Global,
    quantifier: Quantifier,
    role: &Tree<'_>,
    filler: &Tree<'_>,
    prefixes: &Prefixes,
    state: &mut Reading,
) -> Result<Concept, Refusal>
    ensures tests { Tested result state.old (restriction_tests prefixes.now role.now filler.now) state.new }
    ensures grown { Grows state.old state.new }
    ensures value { IfOk result (MeansRestriction prefixes.now state.new.counts quantifier role.now filler.now) }
{
    let role = read_role(alloc, role, prefixes, state)?;
    let filler = read_boxed(alloc, filler, prefixes, state)?;
    Ok(restriction(quantifier, role, filler))
}

fn restriction(quantifier: Quantifier, role: u32, filler: Box<Concept>) -> Concept
    ensures { result ≡ quantified quantifier role filler.value }
{
    let node = match quantifier {
        Quantifier::Some => Node::SomeOf(role, filler),
        Quantifier::All => Node::AllOf(role, filler),
    };
    Concept { node }
}

#[cycle(classes)]
#[tactic(auto, using(crate::proofs::Cited::walking))]
fn read_cardinality(
    alloc: Global,
    bound: Bound,
    number: &Tree<'_>,
    role: &Tree<'_>,
    filler: &[Tree<'_>],
    prefixes: &Prefixes,
    state: &mut Reading,
) -> Result<Concept, Refusal>
    requires { length filler.now ≤ 1 }
    ensures tests { Tested result state.old (cardinality_tests prefixes.now number.now role.now filler.now) state.new }
    ensures grown { Grows state.old state.new }
    ensures value { IfOk result (MeansCardinality prefixes.now state.new.counts bound number.now role.now filler.now) }
{
    let number = read_number(number)?;
    let role = read_role(alloc, role, prefixes, state)?;
    let filler = read_filler(alloc, filler, prefixes, state)?;
    Ok(cardinality(bound, number, role, filler))
}

fn cardinality(bound: Bound, number: u32, role: u32, filler: Box<Concept>) -> Concept
    ensures { result ≡ bounded bound number role filler.value }
{
    let node = match bound {
        Bound::AtLeast => Node::Min(number, role, filler),
        Bound::AtMost => Node::Max(number, role, filler),
        Bound::Exactly => Node::Exact(number, role, filler),
    };
    Concept { node }
}

// The class expression after a number and a role, or else `owl:Thing`.
#[cycle(classes)]
#[tactic(auto, using(crate::proofs::Cited::growing))]
fn read_filler(
    alloc: Global,
    items: &[Tree<'_>],
    prefixes: &Prefixes,
    state: &mut Reading,
) -> Result<Box<Concept>, Refusal>
    requires { length items.now ≤ 1 }
    ensures tests { Tested result state.old (classes_tests prefixes.now items.now) state.new }
    ensures grown { Grows state.old state.new }
    ensures value { IfOk result (λ c. MeansFiller prefixes.now state.new.counts items.now c.value) }
{
    match items.first() {
        Some(item) => read_boxed(alloc, item, prefixes, state),
        None => Ok(Box::new(alloc, Concept { node: Node::Top })?),
    }
}

#[cycle(classes)]
#[tactic(auto, using(crate::proofs::Cited::growing))]
fn read_boxed(
    alloc: Global,
    tree: &Tree<'_>,
    prefixes: &Prefixes,
    state: &mut Reading,
) -> Result<Box<Concept>, Refusal>
    ensures tests { Tested result state.old (class_tests prefixes.now tree.now) state.new }
    ensures grown { Grows state.old state.new }
    ensures value { IfOk result (λ c. Means prefixes.now state.new.counts tree.now c.value) }
{
    Ok(Box::new(alloc, read_class(alloc, tree, prefixes, state)?)?)
}

#[cycle(classes)]
#[tactic(auto, using(crate::proofs::Cited::growing))]
fn read_operand_list(
    alloc: Global,
    items: &[Tree<'_>],
    prefixes: &Prefixes,
    state: &mut Reading,
) -> Result<Vec<Concept>, Refusal>
    ensures tests { Tested result state.old (classes_tests prefixes.now items.now) state.new }
    ensures grown { Grows state.old state.new }
    ensures value { IfOk result (λ cs. MeanAll prefixes.now state.new.counts (items_of items.now) (parts_of cs.items)) }
{
    let mut concepts = Vec::new(alloc);
    for item in items {
        let concept = read_class(alloc, item, prefixes, state)?;
        push_concept(&mut concepts, concept)?;
    }
    Ok(concepts)
}

fn push_concept(concepts: &mut Vec<Concept>, concept: Concept) -> Result<(), NoMemory>
    ensures { OnOk result (concepts.new.items ≡ concepts.old.items ++ concept ∷ []) }
{
    concepts.push(concept)?;
    Ok(())
}

/// The class expressions that the items are.
///
/// # Errors
///
/// What is wrong first, in the order of the tests, and `NoMemory`. What was counted and listed before stays in `state`:
/// the names that were met first, and the nodes. No axiom is added.
#[tactic(auto, using(crate::proofs::Cited::growing))]
pub fn read_classes(
    alloc: Global,
    items: &[Tree<'_>],
    prefixes: &Prefixes,
    state: &mut Reading,
) -> Result<ConceptList, Refusal>
    ensures tests { Tested result state.old (classes_tests prefixes.now items.now) state.new }
    ensures grown { Grows state.old state.new }
    ensures value { IfOk result (λ cs. MeanAll prefixes.now state.new.counts (items_of items.now) (parts_of cs)) }
{
    let mut concepts = ConceptList::new(alloc);
    for item in items {
        let concept = read_class(alloc, item, prefixes, state)?;
        concepts.push(concept)?;
    }
    Ok(concepts)
}
