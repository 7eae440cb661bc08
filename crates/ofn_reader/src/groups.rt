// Groups by their names, and what stands in front of their items.
ghost use Rattle.std.specs.Prelude.{◌≡◌, ◌≤◌, length, codes};
ghost use Rattle.std.specs.List.{prefix_len};
ghost use Rattle.ofn_tree.specs.Items.{items_of};
ghost use Rattle.ofn_reader.specs.Groups.{is_group, inner_items, is_annotation, without_annotations, is_iri_or_name};
ghost use Rattle.ofn_reader.specs.Groups.{behind_name, axiom_items};

use ofn_tree::{Form, Tree};

/// The item is a group of this name.
pub(crate) fn is_group(tree: &Tree<'_>, head: &str) -> bool
    ensures { result ≡ is_group head.now tree.now }
{
    match &tree.form {
        Form::Group(Some(text), _, _) => *text == head,
        Form::Group(None, _, _)
        | Form::Name(_, _)
        | Form::Iri(_, _)
        | Form::Literal(_)
        | Form::Sign(_, _) => false,
    }
}

/// The items of a group. Any other item has none.
pub(crate) fn inner_items<'a, 'b>(tree: &'a Tree<'b>) -> &'a [Tree<'b>]
    ensures { items_of result.now ≡ inner_items tree.now }
{
    match &tree.form {
        Form::Group(_, items, _) => items,
        Form::Name(_, _) | Form::Iri(_, _) | Form::Literal(_) | Form::Sign(_, _) => &[],
    }
}

fn is_annotation(tree: &Tree<'_>) -> bool
    ensures { result ≡ is_annotation tree.now }
{
    is_group(tree, "Annotation")
}

fn annotation_count(items: &[Tree<'_>]) -> usize
    ensures value { result ≡ prefix_len is_annotation items.now }
    ensures within { result ≤ length items.now }
{
    items.iter().take_while(|item| is_annotation(item)).count()
}

/// The items after the annotations in front of them.
#[tactic(auto, using(crate::proofs::Fronts::without_annotations_is))]
pub(crate) fn without_annotations<'a, 'b>(items: &'a [Tree<'b>]) -> &'a [Tree<'b>]
    ensures { items_of result.now ≡ without_annotations (items_of items.now) }
{
    items.split_at(annotation_count(items)).1
}

fn is_iri_or_name(tree: &Tree<'_>) -> bool
    ensures { result ≡ is_iri_or_name tree.now }
{
    match &tree.form {
        Form::Name(_, _) | Form::Iri(_, _) => true,
        Form::Literal(_) | Form::Sign(_, _) | Form::Group(_, _, _) => false,
    }
}

// The items after an IRI or a name, if one stands in front.
fn behind_name<'a, 'b>(items: &'a [Tree<'b>]) -> &'a [Tree<'b>]
    ensures { items_of result.now ≡ behind_name (items_of items.now) }
{
    if items.is_empty() || !is_iri_or_name(&items[0]) {
        return items;
    }
    items.split_at(1).1
}

/// The axioms of an ontology: the items of its group after its IRI and its version.
pub(crate) fn axiom_items<'a, 'b>(items: &'a [Tree<'b>]) -> &'a [Tree<'b>]
    ensures { items_of result.now ≡ axiom_items (items_of items.now) }
{
    behind_name(behind_name(items))
}
