// The certificate that follows a document.
ghost use Rattle.std.specs.Prelude.{◌≡◌, ◌≤◌, map, length, Ok, IfOk, IfErr};
ghost use Rattle.std.specs.List.{prefix_len};
ghost use Rattle.certificate_lines.specs.Lines.{is_blank};
ghost use Rattle.decision_jobs.specs.Certificates.{is_model_verdict, is_refutation_verdict, model_after};
ghost use Rattle.decision_jobs.specs.Certificates.{refutation_after, certificate_in, certificate, IsUnreadBy, Fits};

use certificate_lines::{is_blank, lines};
use finite_model::Interp;
use job_inputs::Unread;
use refutation_tree::Refutation;
use shq_terms::Ontology;
use std::alloc::Global;

/// Why a query does not follow, or why it does.
#[derive(Drop)]
pub enum Certificate {
    /// A finite interpretation in which it fails.
    Model(Interp),
    /// A refutation of the contrary.
    Refutation(Refutation),
}

/// The certificate that the text is.
///
/// # Errors
///
/// `Line` with the first malformed line exactly where the text is no certificate, and `NoMemory`.
#[tactic(auto, using(crate::proofs::Blanks::behind_blanks))]
pub(crate) fn read_certificate(
    alloc: Global,
    text: &[u8],
    ontology: &Ontology,
) -> Result<Certificate, Unread>
    requires { length text.now ≤ 4294967293 }
    ensures found { IfOk result (λ c. certificate ontology.now text.now ≡ Ok c) }
    ensures fits { IfOk result (Fits ontology.now) }
    ensures unread { IfErr result (IsUnreadBy (certificate ontology.now text.now)) }
{
    let lines = lines(alloc, text)?;
    read_verdict(alloc, lines.split_at(blank_count(&lines)).1, ontology)
}

fn blank_count(lines: &[&[u8]]) -> usize
    ensures value { result ≡ prefix_len (λ l. is_blank l.now) lines.now }
    ensures within { result ≤ length lines.now }
{
    lines.iter().take_while(|line| is_blank(line)).count()
}

// The certificate that begins with its verdict.
fn read_verdict(alloc: Global, lines: &[&[u8]], ontology: &Ontology) -> Result<Certificate, Unread>
    requires { length lines.now ≤ 4294967294 }
    ensures found { IfOk result (λ c. certificate_in ontology.now (map (λ l. l.now) lines.now) ≡ Ok c) }
    ensures fits { IfOk result (Fits ontology.now) }
    ensures unread { IfErr result (IsUnreadBy (certificate_in ontology.now (map (λ l. l.now) lines.now))) }
{
    if lines.is_empty() {
        return Err(Unread::Line(1));
    }
    if is_model_verdict(lines[0]) {
        read_model(alloc, &lines[1..], ontology)
    } else if is_refutation_verdict(lines[0]) {
        read_refutation(alloc, &lines[1..], ontology)
    } else {
        Err(Unread::Line(1))
    }
}

#[tactic(auto, using(crate::proofs::Stops::malformed))]
fn read_model(alloc: Global, lines: &[&[u8]], ontology: &Ontology) -> Result<Certificate, Unread>
    ensures found { IfOk result (λ c. model_after ontology.now (map (λ l. l.now) lines.now) ≡ Ok c) }
    ensures fits { IfOk result (Fits ontology.now) }
    ensures unread { IfErr result (IsUnreadBy (model_after ontology.now (map (λ l. l.now) lines.now))) }
{
    match finite_model::read_text(alloc, lines, ontology) {
        Ok(model) => Ok(Certificate::Model(model)),
        Err(fault) => Err(Unread::from(fault)),
    }
}

#[tactic(auto, using(crate::proofs::Stops::malformed))]
fn read_refutation(
    alloc: Global,
    lines: &[&[u8]],
    ontology: &Ontology,
) -> Result<Certificate, Unread>
    requires { length lines.now ≤ 4294967293 }
    ensures found { IfOk result (λ c. refutation_after ontology.now (map (λ l. l.now) lines.now) ≡ Ok c) }
    ensures fits { IfOk result (Fits ontology.now) }
    ensures unread { IfErr result (IsUnreadBy (refutation_after ontology.now (map (λ l. l.now) lines.now))) }
{
    match refutation_tree::read_text(alloc, lines, ontology) {
        Ok(refutation) => Ok(Certificate::Refutation(refutation)),
        Err(fault) => Err(Unread::from(fault)),
    }
}

fn is_model_verdict(line: &[u8]) -> bool
    ensures { result ≡ is_model_verdict line.now }
{
    line == b"not entailed".as_slice() || line == b"satisfiable".as_slice()
}

fn is_refutation_verdict(line: &[u8]) -> bool
    ensures { result ≡ is_refutation_verdict line.now }
{
    line == b"entailed".as_slice() || line == b"unsatisfiable".as_slice()
}
