//! Laws that make a closed search a refutation: each clash and each step is a rule line.
ghost use Rattle.tableau_specs.specs.LineLaws.{ClashesAreLines, ChildlessLinesAreClashes, AddsAreLines, GivesAreLines};
ghost use Rattle.tableau_specs.specs.LineLaws.{GeneratesAreLines, BranchesAreLines};

/// The line of a clash has its premises and no children.
pub fn clashes_are_lines()
    ensures { ClashesAreLines }
{}

/// A rule line that has its premises and no children tells a clash.
pub fn childless_lines_are_clashes()
    ensures { ChildlessLinesAreClashes }
{}

/// The line of an Add has one child, which knows what is added.
pub fn adds_are_lines()
    ensures { AddsAreLines }
{}

/// The line of a given fact has one child, which knows exactly what the longer trail makes known.
pub fn gives_are_lines()
    ensures { GivesAreLines }
{}

/// The line of a Generate has one child, which knows exactly what the longer trail makes known.
pub fn generates_are_lines()
    ensures { GeneratesAreLines }
{}

/// The line of a choice has the alternatives as its children, in order, and no others.
pub fn branches_are_lines()
    ensures { BranchesAreLines }
{}
