//! Where each part of an axiom is used: its trigger, and why its row there says all that the part says.
//!
//! An inclusion is used at elements that have all of the class names on its left side, the most selective of the ways
//! in which absorption may read it (I. Horrocks and S. Tobies, *Reasoning with Axioms: Theory and Practice*, Principles
//! of Knowledge Representation and Reasoning, 2000). One without names is used where an edge of its first existential
//! restriction begins, as a domain (D. Tsarkov and I. Horrocks, *Efficient Reasoning with Range and Domain
//! Constraints*, Description Logics, 2004), and one with neither at every element. A range is used where an edge ends.
ghost use Rattle.absorption.specs.TriggerLaws.{EachPartHasItsRow, RowsAreTheirParts, AxiomsAreTheirRows};

/// Each part has a row with the trigger that is fixed for it.
pub fn each_part_has_its_row()
    ensures { EachPartHasItsRow }
{}

/// A finite interpretation meets a part exactly where, at each element at which the trigger of a row of it holds, the
/// row's concept holds too.
pub fn rows_are_their_parts()
    ensures { RowsAreTheirParts }
{}

/// A finite interpretation meets an axiom on classes, or on the domain or range of a role, exactly where it meets the
/// rows of its parts.
pub fn axioms_are_their_rows()
    ensures { AxiomsAreTheirRows }
{}
