// What is wrong with a text that is refused.
ghost use Rattle.std.specs.Prelude.{◌≡◌, option_map, Some, IfOk, string_bytes};
ghost use Rattle.job_inputs.specs.Complaints.{complaint, fault_complaint, complaint_with, sort_status, sort_text};
ghost use Rattle.job_inputs.specs.Complaints.{limit_name, complaint_text, plain_complaint};

use crate::status::Status;
use ofn_tree::TextFault;
use shq_terms::NoMemory;
use std::alloc::Global;
use text_laws::{Refusal, Which};

/// Where a refused text stands.
#[derive(Clone, Copy, Debug, PartialEq, Eq)]
pub enum Place {
    /// On a line of the document.
    Document,
    /// In the query.
    Query,
}

/// Of which sort a refusal is.
#[derive(Clone, Copy, Debug, PartialEq, Eq)]
pub enum Sort {
    /// The text is wrong.
    BadText,
    /// A construct is left out of the language.
    Outside,
    /// A limit is passed.
    Limit,
}

impl Sort {
    /// How a run ends that answers a refusal of this sort.
    pub fn status(self) -> Status
        ensures { result ≡ sort_status self }
    {
        match self {
            Sort::BadText => Status::BadText,
            Sort::Outside => Status::Outside,
            Sort::Limit => Status::Limit,
        }
    }

    fn text(self) -> &'static str
        ensures { result.now ≡ sort_text self }
    {
        match self {
            Sort::BadText => "bad text",
            Sort::Outside => "outside",
            Sort::Limit => "limit",
        }
    }
}

/// The sort of a refusal, what is wrong, and the line.
#[derive(Clone, Copy)]
pub struct Complaint {
    sort: Sort,
    what: &'static str,
    line: u32,
}

impl Complaint {
    /// How a run ends that answers it.
    pub fn status(self) -> Status
        ensures { result ≡ sort_status self.sort }
    {
        self.sort.status()
    }

    /// The line that says it.
    ///
    /// # Errors
    ///
    /// Out of memory.
    pub fn text(self, alloc: Global, place: Place) -> Result<String, NoMemory>
        ensures { IfOk result (λ text. string_bytes text ≡ complaint_text place (plain_complaint self)) }
    {
        match place {
            Place::Document => self.text_on_a_line(alloc),
            Place::Query => self.text_in_the_query(alloc),
        }
    }

    fn text_on_a_line(self, alloc: Global) -> Result<String, NoMemory>
        ensures { IfOk result (λ text. string_bytes text ≡ complaint_text Place.Document (plain_complaint self)) }
    {
        let sort = self.sort.text();
        let Complaint { what, line, .. } = self;
        Ok(format!(in alloc; "{sort} {what} line {line}\n")?)
    }

    fn text_in_the_query(self, alloc: Global) -> Result<String, NoMemory>
        ensures { IfOk result (λ text. string_bytes text ≡ complaint_text Place.Query (plain_complaint self)) }
    {
        let sort = self.sort.text();
        let what = self.what;
        Ok(format!(in alloc; "{sort} {what} query\n")?)
    }
}

/// What is wrong; none where memory was refused.
pub fn complaint_of(refusal: Refusal) -> Option<Complaint>
    ensures { option_map plain_complaint result ≡ complaint refusal }
{
    match refusal {
        Refusal::Text(fault) => fault_complaint(fault),
        Refusal::BadShape(line) => Some(complain(Sort::BadText, "shape", line)),
        Refusal::UnknownPrefix(line) => Some(complain(Sort::BadText, "prefix", line)),
        Refusal::PrefixClash(line) => Some(complain(Sort::BadText, "clash", line)),
        Refusal::Outside(line, construct) => Some(complain(Sort::Outside, construct.text(), line)),
        Refusal::NotSimple(line) => Some(complain(Sort::Outside, "not-simple", line)),
        Refusal::Limit(which, line) => Some(complain(Sort::Limit, limit_name(which), line)),
        Refusal::NoMemory => None,
    }
}

fn fault_complaint(fault: TextFault) -> Option<Complaint>
    ensures { option_map plain_complaint result ≡ fault_complaint fault }
{
    match fault {
        TextFault::BadUtf8(line) => Some(complain(Sort::BadText, "utf8", line)),
        TextFault::BadToken(line) => Some(complain(Sort::BadText, "token", line)),
        TextFault::Unbalanced(line) => Some(complain(Sort::BadText, "balance", line)),
        TextFault::TooDeep(line) => Some(complain(Sort::Limit, "nesting", line)),
        TextFault::NoMemory => None,
    }
}

fn limit_name(which: Which) -> &'static str
    ensures { result.now ≡ limit_name which }
{
    match which {
        Which::Text => "text",
        Which::Axioms => "axioms",
        Which::Classes => "classes",
        Which::Roles => "roles",
        Which::Individuals => "individuals",
        Which::Nodes => "nodes",
        Which::Number => "number",
        Which::Parts => "parts",
    }
}

fn complain(sort: Sort, what: &'static str, line: u32) -> Complaint
    ensures { Some (plain_complaint result) ≡ complaint_with sort what.now line }
{
    Complaint { sort, what, line }
}
