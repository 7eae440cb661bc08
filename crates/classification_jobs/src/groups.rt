//! The taxonomy of an ontology: which classes have no element, which have every element, and how the others lie in one
//! another.
//!
//! Classification finds for each two classes whether the one is included in the other (Baader, Hollunder, Nebel,
//! Profitlich and Franconi, "An empirical analysis of optimization techniques for terminological representation
//! systems", Applied Intelligence 4, 1994). A taxonomy says the same in short: classes that are equal stand together,
//! and each group names only the groups directly above it, from which all others follow.
// What a taxonomy says.
ghost use Rattle.std.specs.Prelude.{◌≡◌};

use std::marker::Model;

/// Classes of an ontology that are equal, by their numbers, and the groups directly above them.
#[derive(Drop)]
pub struct Group {
    classes: Vec<u32>,
    parents: Vec<u32>,
}

impl Model for Group {
    ghost use Rattle.classification_jobs.specs.TaxonomyLists.{GroupLists};

    ghost Value = { GroupLists };

    ghost view = { λ g. record { classes = g.classes.items; parents = g.parents.items } };
}

impl Group {
    ghost use Rattle.classification_jobs.specs.TaxonomyLists.{GroupLists};

    /// The group of these classes, and of the first class of each group directly above it.
    pub(crate) fn new(classes: Vec<u32>, parents: Vec<u32>) -> Group
        ensures { result ≡ record { classes = classes.items; parents = parents.items } }
    {
        Group { classes, parents }
    }

    /// The equal classes, in the order of the list of classes.
    pub fn classes(&self) -> &[u32]
        ensures { result.now ≡ self.now.classes }
    {
        &self.classes
    }

    /// The first class of each group directly above, in the same order. Where there is none, `owl:Thing` alone is
    /// above.
    pub fn parents(&self) -> &[u32]
        ensures { result.now ≡ self.now.parents }
    {
        &self.parents
    }
}

/// All classes of an ontology: those equal to `owl:Nothing`, those equal to `owl:Thing`, and the groups of the others.
#[derive(Drop)]
pub struct Hierarchy {
    nothing: Vec<u32>,
    thing: Vec<u32>,
    groups: Vec<Group>,
}

impl Model for Hierarchy {
    ghost use Rattle.classification_jobs.specs.TaxonomyLists.{HierarchyLists};

    ghost Value = { HierarchyLists };

    ghost view = { λ h. record { nothing = h.nothing.items; thing = h.thing.items; groups = h.groups.items } };
}

impl Hierarchy {
    ghost use Rattle.classification_jobs.specs.TaxonomyLists.{HierarchyLists};

    pub(crate) fn new(nothing: Vec<u32>, thing: Vec<u32>, groups: Vec<Group>) -> Hierarchy
        ensures { result ≡ record { nothing = nothing.items; thing = thing.items; groups = groups.items } }
    {
        Hierarchy {
            nothing,
            thing,
            groups,
        }
    }

    /// The classes that have no element.
    pub fn nothing(&self) -> &[u32]
        ensures { result.now ≡ self.now.nothing }
    {
        &self.nothing
    }

    /// The classes that have every element.
    pub fn thing(&self) -> &[u32]
        ensures { result.now ≡ self.now.thing }
    {
        &self.thing
    }

    /// The groups of the other classes, in the order of their first classes.
    pub fn groups(&self) -> &[Group]
        ensures { result.now ≡ self.now.groups }
    {
        &self.groups
    }
}

/// The taxonomy of an ontology.
#[derive(Drop)]
pub enum Taxonomy {
    /// Nothing can have an element: `owl:Thing` is included in `owl:Nothing`.
    Inconsistent,
    /// Something can.
    Consistent(Hierarchy),
}
