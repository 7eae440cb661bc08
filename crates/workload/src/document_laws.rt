//! The text of a workload (`workload::generate`) is a document, whose axioms and names are known, and `workload::QUERY`
//! is a query on it.
//!
//! So what is measured on such a text is measured on seven axioms and four for each group, with the numbers that are
//! written here, whatever reads it.
// The text of a workload is a document, and its query is one on it.
ghost use Rattle.workload.specs.Laws.{WorkloadsAreDocuments, WorkloadQueriesAreRead};

/// The text of the workload of n groups, up to 4,000, is a document (OWL 2 Structural Specification, section 3.7). It
/// says seven axioms and four for each group, in order, and lists the classes and roles of the text in the order in
/// which it names them.
pub fn workloads_are_documents()
    ensures { WorkloadsAreDocuments }
{}

/// The query of a workload is a query on that document. It asks whether the first class is in the sixth, and lists no
/// name.
pub fn workload_queries_are_read()
    ensures { WorkloadQueriesAreRead }
{}
