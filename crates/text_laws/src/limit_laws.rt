//! What is read without refusal is within the limits of an ontology and a query on it, as later calls ask for them.
//!
//! A reader tests each limit where the text meets it: the number of a group's items at its name, a cardinality at its
//! number, counts as they grow, and simple roles at the end. Here is what these tests say of the values that were read.
ghost use Rattle.text_laws.specs.LimitLaws.{DocumentsAreInLimit, QueriesAreInLimit, ClassesAreInLimit};
ghost use Rattle.text_laws.specs.LimitLaws.{QueriesListNames, ClassesListNames, AdditionsStayInLimit};
ghost use Rattle.text_laws.specs.LimitLaws.{QueriesStayInLimit, ClassesStayInLimit, QueriesAreCutAgain};
ghost use Rattle.text_laws.specs.LimitLaws.{CutsStayInLimit, DocumentsAreCounted, AdditionsAreCounted};

/// The ontology of a document (OWL 2 Structural Specification, section 3.7) is within the limits.
pub fn documents_are_in_limit()
    ensures { DocumentsAreInLimit }
{}

/// So is it with a query on it, where it lists the names of both.
pub fn queries_are_in_limit()
    ensures { QueriesAreInLimit }
{}

/// So is it with a class expression, as the query whether the class is in `owl:Nothing`.
pub fn classes_are_in_limit()
    ensures { ClassesAreInLimit }
{}

/// The names of a document and a query on it can be written into a certificate, and are read back as they are.
pub fn queries_list_names()
    ensures { QueriesListNames }
{}

/// So can those of a document and a class expression.
pub fn classes_list_names()
    ensures { ClassesListNames }
{}

/// Any ontology within the limits stays within them where an axiom is read that is put into it.
pub fn additions_stay_in_limit()
    ensures { AdditionsStayInLimit }
{}

/// Any ontology within the limits, with a query that is read on it, is within them, where it lists the names of both.
pub fn queries_stay_in_limit()
    ensures { QueriesStayInLimit }
{}

/// So is it with a class expression, as the query whether the class is in `owl:Nothing`.
pub fn classes_stay_in_limit()
    ensures { ClassesStayInLimit }
{}

/// An ontology on which a query was read is as before, once the names are cut that the query has brought.
pub fn queries_are_cut_again()
    ensures { QueriesAreCutAgain }
{}

/// An ontology stays within the limits where names are cut that none of its axioms uses.
pub fn cuts_stay_in_limit()
    ensures { CutsStayInLimit }
{}

/// What a reader counts of a document is what a later reader counts of its axioms.
pub fn documents_are_counted()
    ensures { DocumentsAreCounted }
{}

/// What a reader counts of an axiom that is put into an ontology, after what the ontology holds, is what a later reader
/// counts of all axioms.
pub fn additions_are_counted()
    ensures { AdditionsAreCounted }
{}
