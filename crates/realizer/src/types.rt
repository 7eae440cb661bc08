// What a realization says.
ghost use Rattle.std.specs.Prelude.{◌≡◌};

use std::marker::Model;

/// An individual of an ontology, by its number, and its direct types.
#[derive(Drop)]
pub struct TypeLine {
    individual: u32,
    types: Vec<u32>,
}

impl Model for TypeLine {
    ghost use Rattle.realizer.specs.TypeLists.{TypeLists};

    ghost Value = { TypeLists };

    ghost view = { λ t. record { individual = t.individual; types = t.types.items } };
}

impl TypeLine {
    ghost use Rattle.realizer.specs.TypeLists.{TypeLists};

    pub(crate) fn new(individual: u32, types: Vec<u32>) -> TypeLine
        ensures { result ≡ record { individual = individual; types = types.items } }
    {
        TypeLine { individual, types }
    }

    /// The individual.
    pub fn individual(&self) -> u32
        ensures { result ≡ self.now.individual }
    {
        self.individual
    }

    /// The first class of each of its direct type groups, in the order of the list of classes. Where there is none, the
    /// individual is in `owl:Thing` alone.
    pub fn types(&self) -> &[u32]
        ensures { result.now ≡ self.now.types }
    {
        &self.types
    }
}

/// The direct types of individuals, in the order of the list of individuals.
#[derive(Drop)]
pub struct TypeLines {
    lines: Vec<TypeLine>,
}

impl Model for TypeLines {
    ghost use Rattle.std.specs.Prelude.{List};
    ghost use Rattle.realizer.specs.TypeLists.{TypeLists};

    ghost Value = { List TypeLists };

    ghost view = { λ t. t.lines.items };
}

impl TypeLines {
    pub(crate) fn new(lines: Vec<TypeLine>) -> TypeLines
        ensures { result ≡ lines.items }
    {
        TypeLines { lines }
    }

    /// The lines, in order.
    pub fn lines(&self) -> &[TypeLine]
        ensures { result.now ≡ self.now }
    {
        &self.lines
    }
}

/// The realization of an ontology.
#[derive(Drop)]
pub enum Types {
    /// Nothing can have an element: `owl:Thing` is included in `owl:Nothing`.
    Inconsistent,
    /// Something can, and these are the direct types of each individual.
    Consistent(TypeLines),
}
