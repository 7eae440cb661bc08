// What is answered to a document, a query and a certificate.
ghost use Rattle.std.specs.Prelude.{◌≡◌, false, IfOk};
ghost use Rattle.job_inputs.specs.Complaints.{complaint};
ghost use Rattle.job_inputs.specs.Answer.{Gives, complaint_answer, is_fault, text_bytes};
ghost use Rattle.job_inputs.specs.Replies.{check_answer, message_answer, unread_answer};

use crate::complaint::{Complaint, Place, complaint_of};
use crate::status::Status;
use crate::text::Text;
use crate::unread::Unread;
use crate::verdict::Verdict;
use shq_terms::NoMemory;
use std::alloc::Global;
use text_laws::Refusal;

/// What is answered, before its text is made.
#[derive(Clone, Copy)]
pub enum Message {
    /// The verdict on the certificate.
    Judged(Verdict),
    /// There is no certificate, and this is the number of the first malformed line.
    Malformed(u32),
    /// The document or the query is refused.
    Refused(Place, Complaint),
    /// Out of memory.
    NoMemory,
}

impl Message {
    /// What a verification ended with.
    pub fn of_check(check: Result<Verdict, Unread>) -> Message
        ensures { message_answer result ≡ check_answer check }
    {
        match check {
            Ok(verdict) => Message::Judged(verdict),
            Err(unread) => Message::of_unread(unread),
        }
    }

    /// What keeps an input from being verified.
    pub fn of_unread(unread: Unread) -> Message
        ensures { message_answer result ≡ unread_answer unread }
    {
        match unread {
            Unread::Document(refusal) => Message::of_refusal(Place::Document, refusal),
            Unread::Query(refusal) => Message::of_refusal(Place::Query, refusal),
            Unread::Line(number) => Message::Malformed(number),
            Unread::NoMemory => Message::NoMemory,
        }
    }

    fn of_refusal(place: Place, refusal: Refusal) -> Message
        ensures { message_answer result ≡ complaint_answer place (complaint refusal) }
    {
        match complaint_of(refusal) {
            Some(complaint) => Message::Refused(place, complaint),
            None => Message::NoMemory,
        }
    }

    /// The answer with its text; or that memory was refused for the text.
    #[tactic(auto, using(crate::proofs::Messages::gives, crate::proofs::NoFault::reply_no_fault))]
    pub fn reply(self, alloc: Global) -> (Status, Text)
        ensures gives { Gives (message_answer self) (text_bytes result.1) result.0 }
        ensures no_fault { is_fault result.0 ≡ false }
    {
        match self.text(alloc) {
            Ok(text) => (self.status(), text),
            Err(NoMemory) => (Status::NoMemory, Text::Fixed("no memory\n")),
        }
    }

    fn status(self) -> Status
        ensures { result ≡ (message_answer self).0 }
    {
        match self {
            Message::Judged(Verdict::Entailed | Verdict::NotEntailed) => Status::Done,
            Message::Judged(_) | Message::Malformed(_) => Status::Rejected,
            Message::Refused(_, complaint) => complaint.status(),
            Message::NoMemory => Status::NoMemory,
        }
    }

    fn text(self, alloc: Global) -> Result<Text, NoMemory>
        ensures { IfOk result (λ text. text_bytes text ≡ (message_answer self).1) }
    {
        Ok(match self {
            Message::Judged(Verdict::Entailed) => Text::Fixed("accepted entailed\n"),
            Message::Judged(Verdict::NotEntailed) => Text::Fixed("accepted not entailed\n"),
            Message::Judged(Verdict::Query) => Text::Fixed("rejected query\n"),
            Message::Judged(Verdict::Axiom(number)) => {
                Text::Made(format!(in alloc; "rejected axiom {number}\n")?)
            }
            Message::Judged(Verdict::Line(number)) => {
                Text::Made(format!(in alloc; "rejected line {number}\n")?)
            }
            Message::Malformed(number) => {
                Text::Made(format!(in alloc; "rejected line {number}\n")?)
            }
            Message::Refused(place, complaint) => Text::Made(complaint.text(alloc, place)?),
            Message::NoMemory => Text::Fixed("no memory\n"),
        })
    }
}

/// What is answered to an input that is refused, or where memory was refused.
pub fn unread_reply(alloc: Global, unread: Unread) -> (Status, Text)
    ensures gives { Gives (unread_answer unread) (text_bytes result.1) result.0 }
    ensures no_fault { is_fault result.0 ≡ false }
{
    Message::of_unread(unread).reply(alloc)
}
