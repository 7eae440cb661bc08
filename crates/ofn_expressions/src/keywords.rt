// The keywords of class expressions.
ghost use Rattle.std.specs.Prelude.{◌≡◌};
ghost use Rattle.ofn_expressions.specs.Keywords.{class_keyword};

use crate::Construct;
use crate::construct::excluded_class;

/// Whether some successor is in the filler, or all are.
#[derive(Clone, Copy, Debug, PartialEq, Eq)]
pub(crate) enum Quantifier {
    Some,
    All,
}

/// How the number of successors in the filler is bounded.
#[derive(Clone, Copy, Debug, PartialEq, Eq)]
pub(crate) enum Bound {
    AtLeast,
    AtMost,
    Exactly,
}

/// A keyword that begins a class expression.
#[derive(Clone, Copy, Debug, PartialEq, Eq)]
pub(crate) enum ClassKeyword {
    Intersection,
    Union,
    Complement,
    Restriction(Quantifier),
    Cardinality(Bound),
}

/// What the name of a group says where a class expression must stand.
#[derive(Clone, Copy, Debug, PartialEq, Eq)]
pub(crate) enum Keyword {
    Class(ClassKeyword),
    Excluded(Construct),
    Unknown,
}

#[tactic(auto, unfolding(crate::specs::Keywords::class_keyword))]
pub(crate) fn class_keyword(text: &str) -> Keyword
    ensures { result ≡ class_keyword text.now }
{
    match text {
        "ObjectIntersectionOf" => Keyword::Class(ClassKeyword::Intersection),
        "ObjectUnionOf" => Keyword::Class(ClassKeyword::Union),
        "ObjectComplementOf" => Keyword::Class(ClassKeyword::Complement),
        "ObjectSomeValuesFrom" => Keyword::Class(ClassKeyword::Restriction(Quantifier::Some)),
        "ObjectAllValuesFrom" => Keyword::Class(ClassKeyword::Restriction(Quantifier::All)),
        "ObjectMinCardinality" => Keyword::Class(ClassKeyword::Cardinality(Bound::AtLeast)),
        "ObjectMaxCardinality" => Keyword::Class(ClassKeyword::Cardinality(Bound::AtMost)),
        "ObjectExactCardinality" => Keyword::Class(ClassKeyword::Cardinality(Bound::Exactly)),
        _ => match excluded_class(text) {
            Some(construct) => Keyword::Excluded(construct),
            None => Keyword::Unknown,
        },
    }
}
