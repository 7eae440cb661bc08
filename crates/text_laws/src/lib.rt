//! Laws of texts that are read and written: what the reader's tests say of the values that it makes.
//!
//! - `end_laws`: a document ends with its last bracket, and what stands behind it is not read.
//! - `part_laws`: the reader counts as many parts of an axiom as are made of it.
//! - `limit_laws`: what is read without refusal is within the limits that later calls ask for, an axiom or a query on
//!   any ontology within them too; and what was counted is what a later reader counts.
//! - `writing_laws`: the canonical text of what is read says the same again.
#![tactic(auto)]

mod end_laws;
mod limit_laws;
mod part_laws;
mod writing_laws;

pub use certificate_lines::LineFault;
pub use end_laws::{documents_end_in_their_text, texts_behind_documents_are_not_read};
pub use limit_laws::{
    additions_are_counted, additions_stay_in_limit, classes_are_in_limit, classes_list_names,
    classes_stay_in_limit, cuts_stay_in_limit, documents_are_counted, documents_are_in_limit,
    queries_are_cut_again, queries_are_in_limit, queries_list_names, queries_stay_in_limit,
};
pub use ofn_reader::{Context, Refusal, Which, read_class, read_ontology, read_query};
pub use part_laws::parts_are_counted;
pub use writing_laws::{
    axiom_texts_are_read, class_texts_are_read, documents_are_read_again, documents_can_be_written,
    documents_know_owl, equal_texts_say_the_same, query_texts_are_read,
    written_ontologies_are_read,
};
