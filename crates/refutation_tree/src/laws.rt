// Laws of what is kept, and of what is read.
ghost use Rattle.refutation_tree.specs.Shapes.{ShapesAreNormal};
ghost use Rattle.refutation_tree.specs.Malformed.{RefutationsTellMalformed};
ghost use Rattle.refutation_tree.specs.ReadBack.{RefutationsAreReadBack, ReadIsWritable};

/// The concepts that a refutation names are in normal form after `Top`, which has the number 0, and the parts of each
/// have smaller numbers.
pub fn concepts_are_normal()
    ensures { ShapesAreNormal }
{}

/// The malformed line that `read_text` tells is the first: some text of a refutation begins with the lines before it
/// and none with these and it, or it would stand after the last line, and a text begins with all lines. Lines of which
/// none is malformed are the text of a refutation.
pub fn malformed_line_is_the_first()
    ensures { RefutationsTellMalformed }
{}

/// The lines of a refutation's text are the text of that refutation, for names that are listed once and have no blank
/// and no end of a line in them, as IRIs have none, and for a refutation over the axioms of the document and over
/// listed names, each of whose lines `most` names a node.
pub fn refutations_are_read_back()
    ensures { RefutationsAreReadBack }
{}

/// A refutation that lines are the text of can be written: it keeps to the axioms of the document and to listed names,
/// and each of its lines `most` names a node.
pub fn what_is_read_can_be_written()
    ensures { ReadIsWritable }
{}
