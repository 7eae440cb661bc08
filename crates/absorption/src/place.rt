// Where a row is filed.
ghost use Rattle.std.specs.Prelude.{◌≡◌, ◌<◌, ◌&&◌, ◌⊎◌, nat_lt, IsTrue, length};
ghost use Rattle.calculus_specs.specs.Shape.{shape_of};
ghost use Rattle.calculus_specs.specs.Shape.Shape.{name};
ghost use Rattle.row_cache.specs.Shapes.{form_of};
ghost use Rattle.row_cache.specs.Rows.{is_name_shape};
ghost use Rattle.absorption.specs.Places.{names_class, are_names, IsPlaceOf, HasPlace};

use crate::name_uses::NameUses;
use crate::row::{Row, Trigger};
use row_cache::{Concepts, Shape};

// The place of a row in a table.
#[derive(Clone, Copy, Debug, PartialEq, Eq)]
pub(crate) enum Place {
    // At a class.
    Name(u32),
    // At a role.
    Role(u32),
    // At neither.
    General,
}

// The place of a row: of several classes, that which the fewest rows wait for, and of equals the first.
pub(crate) fn place_of(concepts: &Concepts, uses: &NameUses, row: &Row) -> Place
    requires { HasPlace concepts.now row.now }
    ensures { IsPlaceOf concepts.now row.now result }
{
    match &row.trigger {
        Trigger::Always => Place::General,
        Trigger::Names(_) => Place::Name(rarest_class(concepts, uses, row.premises.items())),
        Trigger::Edge(role) => Place::Role(*role),
        Trigger::End(role) => Place::Role(*role),
    }
}

fn rarest_class(concepts: &Concepts, uses: &NameUses, names: &[u32]) -> u32
    requires some { 0 < length names.now }
    requires names { IsTrue (are_names concepts.now names.now) }
    ensures { IsTrue (names_class concepts.now names.now result) }
{
    let mut rarest = class_of(concepts, names[0]);
    for name in names {
        let class = class_of(concepts, *name);
        rarest = rarer_class(uses, rarest, class);
    }
    rarest
}

fn rarer_class(uses: &NameUses, first: u32, second: u32) -> u32
    ensures { (result ≡ first) ⊎ (result ≡ second) }
{
    if uses.count(second) < uses.count(first) {
        second
    } else {
        first
    }
}

// The class that a number stands for.
pub(crate) fn class_of(concepts: &Concepts, number: u32) -> u32
    requires { IsTrue (nat_lt number (length concepts.now) && is_name_shape (shape_of concepts.now number)) }
    ensures { shape_of concepts.now number ≡ name result }
{
    class_in(concepts.shape(number))
}

fn class_in(shape: Shape<'_>) -> u32
    requires { IsTrue (is_name_shape (form_of shape)) }
    ensures { form_of shape.entry ≡ name result }
{
    match shape {
        Shape::Name(class) => class,
        _ => unreachable!(),
    }
}
