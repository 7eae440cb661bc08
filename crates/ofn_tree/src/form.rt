// The items of a text, bracketed.

use crate::Kind;
use std::marker::Model;

/// An item of a text. Contracts see it as a plain tree, which has a list of trees under a group.
#[cycle(tree)]
#[derive(Drop)]
pub struct Tree<'a> {
    pub form: Form<'a>,
}

/// What an item is. The number is the line of its first token.
#[cycle(tree)]
#[derive(Drop)]
pub enum Form<'a> {
    Name(&'a str, u32),
    /// An IRI, without its `<` and `>`.
    Iri(&'a str, u32),
    Literal(u32),
    /// An equals sign, a tag or carets, by its kind.
    Sign(Kind, u32),
    /// A group with its name, if it has one, and its items.
    Group(Option<&'a str>, Vec<Tree<'a>>, u32),
}

impl<'a> Model for Tree<'a> {
    ghost use Rattle.ofn_tree.specs.Items.{Item, nesting};
    ghost use Rattle.ofn_tree.specs.ItemCode.{item_code};

    ghost Value = { Item };

    ghost coded = { item_code };

    ghost use Rattle.ofn_tree.specs.Form.{form_item};

    ghost view = { λ t. form_item t.form };

    ghost size = { nesting };

    ghost use Rattle.ofn_tree.specs.FormFalls.{deep_le-nesting};

    ghost size_decreases = { λ t h. deep_le-nesting t.form };
}
