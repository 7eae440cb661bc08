// The keywords of axioms and of declared entities.
ghost use Rattle.std.specs.Prelude.{◌≡◌};
ghost use Rattle.ofn_reader.specs.Keywords.{axiom_keyword, entity_keyword};

use ofn_expressions::{Construct, excluded_axiom};

/// A kind of numbered axiom.
#[derive(Clone, Copy, Debug, PartialEq, Eq)]
pub enum AxiomKind {
    SubClassOf,
    EquivalentClasses,
    DisjointClasses,
    DisjointUnion,
    SubRole,
    EquivalentRoles,
    Domain,
    Range,
    Functional,
    Transitive,
    Member,
    Pair,
    SameAll,
    Different,
}

/// What the name of a group says where an axiom must stand.
#[derive(Clone, Copy, Debug, PartialEq, Eq)]
pub(crate) enum AxiomKeyword {
    Numbered(AxiomKind),
    Declaration,
    /// An annotation, or an axiom about annotations, which is not looked at.
    Annotation,
    Excluded(Construct),
    Unknown,
}

/// What the name of a group says where an entity is declared.
#[derive(Clone, Copy, Debug, PartialEq, Eq)]
pub(crate) enum EntityKeyword {
    Class,
    Role,
    Individual,
    /// An entity that is not listed.
    Unlisted,
    Unknown,
}

#[tactic(auto, unfolding(crate::specs::Keywords::axiom_keyword))]
pub(crate) fn axiom_keyword(text: &str) -> AxiomKeyword
    ensures { result ≡ axiom_keyword text.now }
{
    match text {
        "SubClassOf" => AxiomKeyword::Numbered(AxiomKind::SubClassOf),
        "EquivalentClasses" => AxiomKeyword::Numbered(AxiomKind::EquivalentClasses),
        "DisjointClasses" => AxiomKeyword::Numbered(AxiomKind::DisjointClasses),
        "DisjointUnion" => AxiomKeyword::Numbered(AxiomKind::DisjointUnion),
        "SubObjectPropertyOf" => AxiomKeyword::Numbered(AxiomKind::SubRole),
        "EquivalentObjectProperties" => AxiomKeyword::Numbered(AxiomKind::EquivalentRoles),
        "ObjectPropertyDomain" => AxiomKeyword::Numbered(AxiomKind::Domain),
        "ObjectPropertyRange" => AxiomKeyword::Numbered(AxiomKind::Range),
        "FunctionalObjectProperty" => AxiomKeyword::Numbered(AxiomKind::Functional),
        "TransitiveObjectProperty" => AxiomKeyword::Numbered(AxiomKind::Transitive),
        "ClassAssertion" => AxiomKeyword::Numbered(AxiomKind::Member),
        "ObjectPropertyAssertion" => AxiomKeyword::Numbered(AxiomKind::Pair),
        "SameIndividual" => AxiomKeyword::Numbered(AxiomKind::SameAll),
        "DifferentIndividuals" => AxiomKeyword::Numbered(AxiomKind::Different),
        "Declaration" => AxiomKeyword::Declaration,
        "Annotation" => AxiomKeyword::Annotation,
        "AnnotationAssertion" => AxiomKeyword::Annotation,
        "SubAnnotationPropertyOf" => AxiomKeyword::Annotation,
        "AnnotationPropertyDomain" => AxiomKeyword::Annotation,
        "AnnotationPropertyRange" => AxiomKeyword::Annotation,
        _ => match excluded_axiom(text) {
            Some(construct) => AxiomKeyword::Excluded(construct),
            None => AxiomKeyword::Unknown,
        },
    }
}

#[tactic(auto, unfolding(crate::specs::Keywords::entity_keyword))]
pub(crate) fn entity_keyword(text: &str) -> EntityKeyword
    ensures { result ≡ entity_keyword text.now }
{
    match text {
        "Class" => EntityKeyword::Class,
        "ObjectProperty" => EntityKeyword::Role,
        "NamedIndividual" => EntityKeyword::Individual,
        "DataProperty" => EntityKeyword::Unlisted,
        "AnnotationProperty" => EntityKeyword::Unlisted,
        "Datatype" => EntityKeyword::Unlisted,
        _ => EntityKeyword::Unknown,
    }
}
