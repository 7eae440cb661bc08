// What `check` says of certificates, and `audit` of audits.

use crate::{Answer, NoMemory, query_of, run_on};
use std::alloc::Global;

/// What `check` answers on a document with a certificate behind it, for the query that these two words ask.
///
/// # Errors
///
/// Out of memory before the run.
pub fn checked(
    alloc: Global,
    words: [&str; 2],
    document: &str,
    certificate: &[u8],
) -> Result<Answer, NoMemory> {
    let query = query_of(alloc, words[0], words[1])?;
    verified(alloc, ["check", query.as_str()], document, certificate)
}

/// What `audit` answers on a document with an audit behind it, for this query.
///
/// # Errors
///
/// Out of memory before the run.
pub fn audited(
    alloc: Global,
    query: &str,
    document: &str,
    audit: &[u8],
) -> Result<Answer, NoMemory> {
    verified(alloc, ["audit", query], document, audit)
}

// What is answered to these words on a document with a text behind it.
fn verified(
    alloc: Global,
    words: [&str; 2],
    document: &str,
    text: &[u8],
) -> Result<Answer, NoMemory> {
    let mut input = Vec::from_slice(alloc, document.as_bytes())?;
    input.extend_from_slice(text)?;
    run_on(alloc, &words, &input)
}
