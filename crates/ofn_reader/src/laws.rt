// A text says one thing at most, and is refused only where it says nothing.
ghost use Rattle.ofn_reader.specs.Laws.{DocumentsAreUnique, DocumentsAreNotRefused, QueriesAreUnique};
ghost use Rattle.ofn_reader.specs.Laws.{QueriesAreNotRefused, ClassesAreUnique, ClassesAreNotRefused};
ghost use Rattle.ofn_reader.specs.Laws.{DocumentRefusalsAreUnique, QueryRefusalsAreUnique, ClassRefusalsAreUnique};
ghost use Rattle.ofn_reader.specs.Laws.{AdditionsAreUnique, AdditionsAreNotRefused, AdditionRefusalsAreUnique};

/// A text is the document of one ontology at most, with one list of prefixes, one count of nodes and one end.
pub fn documents_are_unique()
    ensures { DocumentsAreUnique }
{}

/// No text is a document and refused.
pub fn documents_are_not_refused()
    ensures { DocumentsAreNotRefused }
{}

/// A text is one query at most, with one list of names after it.
pub fn queries_are_unique()
    ensures { QueriesAreUnique }
{}

/// No text is a query and refused.
pub fn queries_are_not_refused()
    ensures { QueriesAreNotRefused }
{}

/// A text is one class expression at most, with one list of names after it.
pub fn classes_are_unique()
    ensures { ClassesAreUnique }
{}

/// No text is a class expression and refused.
pub fn classes_are_not_refused()
    ensures { ClassesAreNotRefused }
{}

/// A text is refused as a document for one reason at most.
pub fn document_refusals_are_unique()
    ensures { DocumentRefusalsAreUnique }
{}

/// A text is refused as a query for one reason at most.
pub fn query_refusals_are_unique()
    ensures { QueryRefusalsAreUnique }
{}

/// A text is refused as a class expression that is asked about for one reason at most.
pub fn class_refusals_are_unique()
    ensures { ClassRefusalsAreUnique }
{}

/// A text is one axiom at most that is put into an ontology, with one list of names after it.
pub fn additions_are_unique()
    ensures { AdditionsAreUnique }
{}

/// No text is such an axiom and refused.
pub fn additions_are_not_refused()
    ensures { AdditionsAreNotRefused }
{}

/// A text is refused as such an axiom for one reason at most.
pub fn addition_refusals_are_unique()
    ensures { AdditionRefusalsAreUnique }
{}
