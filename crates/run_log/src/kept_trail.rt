// A trail that is kept when its search is gone.
ghost use Rattle.std.specs.Prelude.{◌≡◌, ◌<◌, IfOk, length, map, take};
ghost use Rattle.calculus_specs.specs.Shape.{shape_of};
ghost use Rattle.refutation_truth.specs.Shapes.{form_of, form_of_owned};

use crate::NoMemory;
use refutation_truth::{Concepts, OwnedShape, Shape};
use std::alloc::Global;
use std::marker::Model;
use tableau_specs::Item;

/// The trail of a search, copied out: its facts and marks, and the shapes through which its concept numbers are read.
///
/// Its lists lie behind one pointer, since each entry of a log has the room for a trail, and at most one has a trail.
#[derive(Drop)]
pub struct KeptTrail {
    lists: Box<Lists>,
}

#[derive(Drop)]
struct Lists {
    items: Vec<Item>,
    shapes: Vec<OwnedShape>,
}

impl Model for KeptTrail {
    ghost use Rattle.std.specs.Prelude.{map};
    ghost use Rattle.std.specs.Coded.{codes};
    ghost use Rattle.refutation_truth.specs.Shapes.{form_of_owned};
    ghost use Rattle.run_log.specs.Trails.{TrailLists};

    ghost Value = { TrailLists };

    ghost coded = { Prim.hlevel codes };

    ghost view = { λ t. record {
      items = t.lists.value.items.items;
      table = map form_of_owned t.lists.value.shapes.items;
    } };
}

impl KeptTrail {
    ghost use Rattle.run_log.specs.Trails.{TrailLists};

    /// Keeps these facts and marks, and copies the shapes of a search's concepts.
    ///
    /// # Errors
    ///
    /// Out of memory.
    pub fn new(alloc: Global, items: Vec<Item>, concepts: &Concepts) -> Result<KeptTrail, NoMemory>
        ensures { IfOk result (λ t. t ≡ record { items = items.items; table = concepts.now }) }
    {
        let shapes = copies(alloc, concepts)?;
        Ok(KeptTrail {
            lists: Box::new(alloc, Lists { items, shapes })?,
        })
    }

    /// The facts and marks, in order.
    pub fn items(&self) -> &[Item]
        ensures { result.now ≡ self.now.items }
    {
        &self.lists.items
    }

    /// How many concepts have a shape. Their numbers are those below this.
    pub fn shape_count(&self) -> usize
        ensures { result ≡ length self.now.table }
    {
        self.lists.shapes.len()
    }

    /// The shape of a concept.
    pub fn shape(&self, concept: usize) -> Shape<'_>
        requires { concept < length self.now.table }
        ensures { form_of result ≡ shape_of self.now.table concept }
    {
        self.lists.shapes[concept].shape()
    }
}

// The shapes of all concepts of the table, in order.
fn copies(alloc: Global, concepts: &Concepts) -> Result<Vec<OwnedShape>, NoMemory>
    ensures { IfOk result (λ shapes. map form_of_owned shapes.items ≡ concepts.now) }
{
    let mut shapes = Vec::new(alloc);
    for concept in 0..concepts.len() {
        shapes.push(copy(alloc, concepts.shape(concept))?)?;
    }
    Ok(shapes)
}

// The shape with parts of its own.
fn copy(alloc: Global, shape: Shape<'_>) -> Result<OwnedShape, NoMemory>
    ensures { IfOk result (λ kept. form_of_owned kept ≡ form_of shape.entry) }
{
    Ok(match shape {
        Shape::Top => OwnedShape::Top,
        Shape::Bottom => OwnedShape::Bottom,
        Shape::Name(class) => OwnedShape::Name(class),
        Shape::NotName(class) => OwnedShape::NotName(class),
        Shape::And(parts) => OwnedShape::And(copy_of(alloc, parts)?),
        Shape::Or(parts) => OwnedShape::Or(copy_of(alloc, parts)?),
        Shape::SomeOf(role, filler) => OwnedShape::SomeOf(role, filler),
        Shape::AllOf(role, filler) => OwnedShape::AllOf(role, filler),
        Shape::Min(count, role, filler) => OwnedShape::Min(count, role, filler),
        Shape::Max(count, role, filler) => OwnedShape::Max(count, role, filler),
    })
}

fn copy_of(alloc: Global, parts: &[u32]) -> Result<Vec<u32>, NoMemory>
    ensures { IfOk result (λ copy. copy.items ≡ parts.now) }
{
    Ok(Vec::from_slice(alloc, parts)?)
}
