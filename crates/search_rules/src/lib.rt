//! What is the same for all searches over one set of axioms, made once: concepts by number, roles and their axioms,
//! rows, the facts that assertions give of individuals, and what a search asks of these.
//!
//! A tableau search asks the same questions over and over: which rows wait for a name or an edge, what a universal
//! restriction hands on along transitive roles, what the complement of a concept is, which number restrictions count a
//! concept, which facts are given and which of these are edges to an individual. [`SearchRules`] answers each by a look
//! into a table. The tables cost what the axioms of the set cost, whatever the ontology has besides, and a query whose
//! concepts have numbers costs nothing more: classification asks thousands of queries over one set of axioms.
//!
//! Rows wait for names and edges as in absorption (I. Horrocks and S. Tobies, *Reasoning with Axioms: Theory and
//! Practice*, Principles of Knowledge Representation and Reasoning, 2000), and universal restrictions go along
//! transitive roles as in I. Horrocks, U. Sattler and S. Tobies, *Practical Reasoning for Expressive Description
//! Logics*, Logic for Programming and Automated Reasoning, 1999.
#![tactic(auto)]

mod carries;
mod complements;
mod edge_tables;
mod given_facts;
mod item_list;
mod mosts;
mod named_rows;
mod number_tables;
mod query_numbers;
mod role_axioms;
mod search_rules;

pub use search_rules::SearchRules;
pub use shq_terms::NoMemory;
pub use step_finders::Rules;
