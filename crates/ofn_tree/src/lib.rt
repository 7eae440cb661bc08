//! The tokens of a document in the functional-style syntax of OWL 2, and the tree of its brackets.
//!
//! The grammar of the OWL 2 Structural Specification (sections 2, 3.7, 8 and 9) is read in three steps: bytes to
//! tokens, tokens to a tree of groups, and groups to axioms. The first two are here. Tokens are cut by the longest
//! match, as lexical analyzers do: a name and a tag are as long as their characters go on. Reading stops after the
//! bracket that closes the document's group `Ontology`, so that other text may follow a document.
//!
//! The contracts pin each answer. A text has tokens or a first fault, and not both; tokens make one tree at most or
//! have a first fault. Laws say what the definition of the tokens means: they are slices of the text in order, with
//! their lines, between them stands nothing but whitespace and comments, and no token could be longer.
#![tactic(auto)]

mod bytes;
mod cut;
mod fault;
mod form;
mod lexer;
mod parser;
mod token;

pub use bytes::{MAX_BYTES, end_line};
pub use fault::TextFault;
pub use form::{Form, Tree};
pub use lexer::{
    only_gaps_stand_between_tokens, texts_are_read_or_faulty, tokens, tokens_are_longest,
    tokens_are_slices, tokens_end_with_the_document, tokens_have_lines,
};
pub use parser::{tree, trees_are_unique};
pub use token::{Kind, Token};
