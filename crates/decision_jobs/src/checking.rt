// What is verified: a document, a query on it and a certificate.
ghost use Rattle.std.specs.Prelude.{◌≡◌, ◌≤◌, IfOk, IfErr, length};
ghost use Rattle.std.specs.Result.{result_map_both};
ghost use Rattle.decision_jobs.specs.Certificates.{Fits};
ghost use Rattle.decision_jobs.specs.Checking.{IsInput, CanBeJudged, IsUnread, IsClaim, IsUnclaimed, input_with};

use crate::certificate::{Certificate, read_certificate};
use job_inputs::{Unread, document, query_on};
use ofn_reader::Context;
use shq_terms::{Ontology, Query};
use std::alloc::Global;

/// What is verified: the axioms, the query and the certificate.
#[derive(Drop)]
pub(crate) struct Input {
    pub ontology: Ontology,
    pub asked: Query,
    pub certificate: Certificate,
}

/// Reads the document, the query on it and the certificate that follows it.
pub(crate) fn read_input(alloc: Global, query: &str, bytes: &[u8]) -> Result<Input, Unread>
    requires { length bytes.now ≤ 4294967293 }
    ensures input { IfOk result (IsInput query.now bytes.now) }
    ensures within { IfOk result CanBeJudged }
    ensures unread { IfErr result (IsUnread query.now bytes.now) }
{
    let (mut ontology, context, end) = document(alloc, bytes)?;
    let claim = read_claim(alloc, query, bytes.split_at(end).1, &mut ontology, &context);
    input_of(ontology, claim)
}

// The query and the certificate.
#[derive(Drop)]
pub(crate) struct Claim {
    pub asked: Query,
    pub certificate: Certificate,
}

fn input_of(ontology: Ontology, claim: Result<Claim, Unread>) -> Result<Input, Unread>
    ensures { result ≡ result_map_both (input_with ontology) (λ u. u) claim }
{
    match claim {
        Ok(Claim { asked, certificate }) => Ok(Input {
            ontology,
            asked,
            certificate,
        }),
        Err(unread) => {
            drop(ontology);
            Err(unread)
        }
    }
}

// Reads the query, and the certificate that the rest of the input is.
fn read_claim(
    alloc: Global,
    query: &str,
    rest: &[u8],
    ontology: &mut Ontology,
    context: &Context,
) -> Result<Claim, Unread>
    requires { length rest.now ≤ 4294967293 }
    ensures claim { IfOk result (IsClaim ontology.old context.now query.now rest.now ontology.new) }
    ensures fits { IfOk result (λ c. Fits ontology.new c.certificate) }
    ensures unclaimed { IfErr result (IsUnclaimed ontology.old context.now query.now rest.now) }
{
    let asked = query_on(alloc, query, ontology, context)?;
    let certificate = read_certificate(alloc, rest, ontology);
    claim_of(asked, certificate)
}

fn claim_of(asked: Query, certificate: Result<Certificate, Unread>) -> Result<Claim, Unread>
    ensures { result ≡ result_map_both (λ c. record { asked = asked; certificate = c }) (λ u. u) certificate }
{
    match certificate {
        Ok(certificate) => Ok(Claim { asked, certificate }),
        Err(unread) => {
            drop(asked);
            Err(unread)
        }
    }
}
