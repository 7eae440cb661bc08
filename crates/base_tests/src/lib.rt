//! Tests of the lower rooms: of streams, of ontologies, of equality and of sets of numbers; of documents in
//! functional-style syntax and their canonical texts; and of certificates.
#![tactic(auto)]

#[cfg(test)]
mod axiom_tests;
#[cfg(test)]
mod checks;
#[cfg(test)]
mod dependency_tests;
#[cfg(test)]
mod document_tests;
#[cfg(test)]
mod equality_tests;
#[cfg(test)]
mod lane_tests;
#[cfg(test)]
mod line_tests;
#[cfg(test)]
mod ontology_tests;
#[cfg(test)]
mod stream_tests;
#[cfg(test)]
mod token_tests;
#[cfg(test)]
mod word_tests;
#[cfg(test)]
mod writer_tests;
