// The shapes by which a table shows and keeps its concepts.
ghost use Rattle.std.specs.Prelude.{◌≡◌, IfOk};
ghost use Rattle.shq_nnf.specs.Shapes.{form_of, form_of_owned};

use crate::NoMemory;
use std::alloc::Global;

/// A concept in normal form, whose parts are numbers of a table.
///
/// In `SomeOf` and `AllOf` the role stands before the concept. `Min` ("at least") and `Max` ("at most") begin with the
/// cardinality, and the role and the concept follow.
#[derive(Clone, Copy, Debug, PartialEq, Eq, Drop)]
pub enum Shape<'a> {
    Top,
    Bottom,
    Name(u32),
    NotName(u32),
    And(&'a [u32]),
    Or(&'a [u32]),
    SomeOf(u32, u32),
    AllOf(u32, u32),
    Min(u32, u32, u32),
    Max(u32, u32, u32),
}

/// A shape that owns the numbers of its parts.
#[derive(Debug, PartialEq, Eq, Hash, Drop)]
pub enum OwnedShape {
    Top,
    Bottom,
    Name(u32),
    NotName(u32),
    And(Vec<u32>),
    Or(Vec<u32>),
    SomeOf(u32, u32),
    AllOf(u32, u32),
    Min(u32, u32, u32),
    Max(u32, u32, u32),
}

impl OwnedShape {
    /// The shape that is kept.
    pub fn shape(&self) -> Shape<'_>
        ensures { form_of result ≡ form_of_owned self.now }
    {
        match self {
            OwnedShape::Top => Shape::Top,
            OwnedShape::Bottom => Shape::Bottom,
            OwnedShape::Name(class) => Shape::Name(*class),
            OwnedShape::NotName(class) => Shape::NotName(*class),
            OwnedShape::And(parts) => Shape::And(parts),
            OwnedShape::Or(parts) => Shape::Or(parts),
            OwnedShape::SomeOf(role, filler) => Shape::SomeOf(*role, *filler),
            OwnedShape::AllOf(role, filler) => Shape::AllOf(*role, *filler),
            OwnedShape::Min(count, role, filler) => Shape::Min(*count, *role, *filler),
            OwnedShape::Max(count, role, filler) => Shape::Max(*count, *role, *filler),
        }
    }
}

/// The shape with parts of its own.
pub(crate) fn owned(alloc: Global, shape: Shape<'_>) -> Result<OwnedShape, NoMemory>
    ensures { IfOk result (λ kept. form_of_owned kept ≡ form_of shape.entry) }
{
    Ok(match shape {
        Shape::Top => OwnedShape::Top,
        Shape::Bottom => OwnedShape::Bottom,
        Shape::Name(class) => OwnedShape::Name(class),
        Shape::NotName(class) => OwnedShape::NotName(class),
        Shape::And(parts) => OwnedShape::And(copied(alloc, parts)?),
        Shape::Or(parts) => OwnedShape::Or(copied(alloc, parts)?),
        Shape::SomeOf(role, filler) => OwnedShape::SomeOf(role, filler),
        Shape::AllOf(role, filler) => OwnedShape::AllOf(role, filler),
        Shape::Min(count, role, filler) => OwnedShape::Min(count, role, filler),
        Shape::Max(count, role, filler) => OwnedShape::Max(count, role, filler),
    })
}

fn copied(alloc: Global, parts: &[u32]) -> Result<Vec<u32>, NoMemory>
    ensures { IfOk result (λ copy. copy.items ≡ parts.now) }
{
    Ok(Vec::from_slice(alloc, parts)?)
}
