//! Refutations from lines whose concepts are numbers of a table.
//!
//! A search writes its rule lines over the table of concepts that it works with, and this table may be large. A
//! refutation names only the concepts that its lines name, with their parts, by numbers of its own. Each of them is
//! numbered once, after its parts, so that what is done depends on the lines and on the concepts that they use, and not
//! on the table.
// Refutations from lines over a table.
ghost use Rattle.std.specs.Prelude.{◌≡◌, ◌++◌, [], true, IsTrue, IfOk, OnOk, length, map};
ghost use Rattle.std.specs.List.{list_all};
ghost use Rattle.search_trace.specs.RuleLine.{line_of, names_concepts};
ghost use Rattle.search_trace.specs.Renumbered.{renumbered};
ghost use Rattle.closed_search.specs.Naming.{IsNaming};
ghost use Rattle.closed_search.specs.Finished.{is_over, are_over, IsNumbered, IsLine, AreLines};

use crate::NoMemory;
use crate::numbering::Naming;
use axiom_sets::AxiomSet;
use refutation_truth::Concepts;
use search_trace::{Line, Refutation};
use std::alloc::Global;

/// The refutation with these axioms and these lines, in which each number of the table is replaced by the number of
/// the same concept among the refutation's own.
///
/// The refutation has the concepts that the lines name, and their parts. What is done is in proportion to these and to
/// the lines, however many concepts the table has.
///
/// # Errors
///
/// Out of memory.
pub fn numbered_refutation(
    alloc: Global,
    axioms: AxiomSet,
    concepts: &Concepts,
    lines: Vec<Line>,
) -> Result<Refutation, NoMemory>
    requires { are_over (length concepts.now) (map line_of lines.items) ≡ true }
    ensures { IfOk result (IsNumbered concepts.now «axioms» (map line_of lines.items)) }
{
    let mut naming = Naming::new(alloc, axioms);
    let mut made = Vec::new(alloc);
    name_lines(&mut naming, concepts, lines, &mut made)?;
    let mut refutation = naming.into_refutation();
    put_lines(&mut refutation, made)?;
    Ok(refutation)
}

// Names the concepts of the lines, and puts the lines with their numbers behind those that are there.
fn name_lines(
    naming: &mut Naming,
    concepts: &Concepts,
    lines: Vec<Line>,
    made: &mut Vec<Line>,
) -> Result<(), NoMemory>
    requires over { are_over (length concepts.now) (map line_of lines.items) ≡ true }
    requires naming { IsNaming concepts.now naming.old }
    requires none { made.old.items ≡ [] }
    ensures { OnOk result
        (AreLines concepts.now naming.old naming.new (map line_of lines.items) (map line_of made.new.items)) }
{
    for line in lines {
        let numbered = naming.numbered(concepts, line)?;
        made.push(numbered)?;
    }
    Ok(())
}

// Puts the lines behind those that are there.
fn put_lines(refutation: &mut Refutation, lines: Vec<Line>) -> Result<(), NoMemory>
    requires { list_all (names_concepts refutation.old.shapes) (map line_of lines.items) ≡ true }
    ensures { let all = refutation.old.lines ++ map line_of lines.items in
        OnOk result (refutation.new ≡ record refutation.old { lines = all }) }
{
    for line in lines {
        refutation.put_line(line)?;
    }
    Ok(())
}

// The line with another concept, if it names one.
fn with_concept(line: Line, number: u32) -> Line
    ensures { line_of result ≡ renumbered (λ _. number) (line_of line) }
{
    match line {
        Line::And(node, _) => Line::And(node, number),
        Line::Or(node, _) => Line::Or(node, number),
        Line::All(node, end, _) => Line::All(node, end, number),
        Line::Carry(node, end, role, _) => Line::Carry(node, end, role, number),
        Line::SomeOf(node, end, _) => Line::SomeOf(node, end, number),
        Line::Least(node, first, _) => Line::Least(node, first, number),
        Line::Choose(node, _) => Line::Choose(node, number),
        Line::Clash(node, _) => Line::Clash(node, number),
        Line::Most(node, _, ends) => Line::Most(node, number, ends),
        other @ (Line::Start | Line::Row(..) | Line::Range(..) | Line::Pair(..)) => other,
        other @ (Line::Bottom(..) | Line::Fact(..) | Line::Differ(..)) => other,
    }
}

impl Naming {
    // The line with the refutation's number of its concept, which comes to be named.
    fn numbered(&mut self, concepts: &Concepts, line: Line) -> Result<Line, NoMemory>
        requires over { is_over (length concepts.now) (line_of line) ≡ true }
        requires naming { IsNaming concepts.now self.old }
        ensures { IfOk result (λ l. IsLine concepts.now self.old self.new (line_of line) (line_of l)) }
    {
        match line.concept() {
            None => Ok(line),
            Some(concept) => {
                let number = self.name(concepts, concept)?;
                Ok(with_concept(line, number))
            }
        }
    }

    // The refutation that has the shapes.
    fn into_refutation(self) -> Refutation
        ensures { result ≡ self.refutation }
    {
        let Naming { refutation, .. } = self;
        refutation
    }
}
