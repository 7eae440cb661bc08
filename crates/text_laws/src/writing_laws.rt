//! What is written of an ontology, and of class expressions, queries and axioms over its names, is read again.
ghost use Rattle.text_laws.specs.WritingLaws.{WrittenOntologiesAreRead, DocumentsCanBeWritten, DocumentsAreReadAgain};
ghost use Rattle.text_laws.specs.WritingLaws.{EqualTextsSayTheSame, DocumentsKnowOwl, ClassTextsAreRead};
ghost use Rattle.text_laws.specs.WritingLaws.{QueryTextsAreRead, AxiomTextsAreRead};

/// The canonical text of an ontology is a document (OWL 2 Structural Specification, section 3.7), which lists the same
/// classes, roles and individuals in the same order, and the same axioms in the same order. The names of the ontology
/// may stand in a document, and it is within the limits of documents.
pub fn written_ontologies_are_read()
    ensures { WrittenOntologiesAreRead }
{}

/// The ontology of a document has names that may stand in a document, and is within the limits of documents.
pub fn documents_can_be_written()
    ensures { DocumentsCanBeWritten }
{}

/// The canonical text of the ontology of a document is a document of the same ontology, but for the lines of its
/// axioms.
pub fn documents_are_read_again()
    ensures { DocumentsAreReadAgain }
{}

/// Two ontologies of one canonical text have the same names and axioms in the same order.
pub fn equal_texts_say_the_same()
    ensures { EqualTextsSayTheSame }
{}

/// In each document the prefix of `owl:Thing` and `owl:Nothing` stands for the IRI of the OWL vocabulary (OWL 2
/// Structural Specification, section 2.4).
pub fn documents_know_owl()
    ensures { DocumentsKnowOwl }
{}

/// The text of a class expression over the names of an ontology is read as that expression, with no new name.
pub fn class_texts_are_read()
    ensures { ClassTextsAreRead }
{}

/// The text of a query over the names of an ontology is read as that query, with no new name: an inclusion of classes,
/// or that an individual is in a class.
pub fn query_texts_are_read()
    ensures { QueryTextsAreRead }
{}

/// The text of an axiom over the names of an ontology, of each of the fourteen kinds, is read as that axiom where it is
/// put into the ontology, with no new name.
pub fn axiom_texts_are_read()
    ensures { AxiomTextsAreRead }
{}
