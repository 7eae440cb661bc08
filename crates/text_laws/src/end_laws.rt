//! Where documents end: behind the bracket that closes their group `Ontology`. What stands there is not read.
ghost use Rattle.text_laws.specs.EndLaws.{DocumentsEndInTheirText, TextsBehindDocumentsAreNotRead};

/// The end of a document is a place of its text.
pub fn documents_end_in_their_text()
    ensures { DocumentsEndInTheirText }
{}

/// The text of a document up to its end, with any other bytes behind it, is the same document, which ends at the same
/// place. Nothing is asked of these bytes: they need not be UTF-8.
pub fn texts_behind_documents_are_not_read()
    ensures { TextsBehindDocumentsAreNotRead }
{}
