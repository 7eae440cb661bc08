// The keywords of concept lines and of rule lines.
ghost use Rattle.std.specs.Prelude.{◌≡◌};
ghost use Rattle.refutation_tree.specs.Keywords.{shape_kind, line_kind};

use std::str;

/// A kind of shape.
#[derive(Clone, Copy, Debug, PartialEq, Eq)]
pub(crate) enum ShapeKind {
    Top,
    Bottom,
    Name,
    NotName,
    And,
    Or,
    SomeOf,
    AllOf,
    Least,
    Most,
}

/// A kind of rule line.
#[derive(Clone, Copy, Debug, PartialEq, Eq)]
pub(crate) enum LineKind {
    Start,
    And,
    Or,
    All,
    Carry,
    Row,
    Range,
    SomeOf,
    Least,
    Choose,
    Pair,
    Bottom,
    Clash,
    Most,
    Fact,
    Differ,
}

/// The kind of shape that a word names.
pub(crate) fn shape_kind(word: &[u8]) -> Option<ShapeKind>
    ensures { result ≡ shape_kind word.now }
{
    match str::from_utf8(word) {
        Ok(text) => shape_kind_of(text),
        Err(_) => None,
    }
}

#[tactic(auto, unfolding(crate::specs::Keywords::shape_kind))]
fn shape_kind_of(text: &str) -> Option<ShapeKind>
    ensures { result ≡ shape_kind text.now }
{
    match text {
        "top" => Some(ShapeKind::Top),
        "bottom" => Some(ShapeKind::Bottom),
        "name" => Some(ShapeKind::Name),
        "not" => Some(ShapeKind::NotName),
        "and" => Some(ShapeKind::And),
        "or" => Some(ShapeKind::Or),
        "some" => Some(ShapeKind::SomeOf),
        "all" => Some(ShapeKind::AllOf),
        "least" => Some(ShapeKind::Least),
        "most" => Some(ShapeKind::Most),
        _ => None,
    }
}

/// The kind of rule line that a word names.
pub(crate) fn line_kind(word: &[u8]) -> Option<LineKind>
    ensures { result ≡ line_kind word.now }
{
    match str::from_utf8(word) {
        Ok(text) => line_kind_of(text),
        Err(_) => None,
    }
}

#[tactic(auto, unfolding(crate::specs::Keywords::line_kind))]
fn line_kind_of(text: &str) -> Option<LineKind>
    ensures { result ≡ line_kind text.now }
{
    match text {
        "start" => Some(LineKind::Start),
        "and" => Some(LineKind::And),
        "or" => Some(LineKind::Or),
        "all" => Some(LineKind::All),
        "carry" => Some(LineKind::Carry),
        "row" => Some(LineKind::Row),
        "range" => Some(LineKind::Range),
        "some" => Some(LineKind::SomeOf),
        "least" => Some(LineKind::Least),
        "choose" => Some(LineKind::Choose),
        "pair" => Some(LineKind::Pair),
        "bottom" => Some(LineKind::Bottom),
        "clash" => Some(LineKind::Clash),
        "most" => Some(LineKind::Most),
        "fact" => Some(LineKind::Fact),
        "differ" => Some(LineKind::Differ),
        _ => None,
    }
}
