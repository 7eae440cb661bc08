// Cases, and what they share.

use crate::certificates::Certificate;
use crate::documents::Document;
use crate::keys::Key;
use crate::turns::Numbers;
use job_runs::NoMemory;
use std::alloc::Global;

/// What else is printed of an answer.
#[derive(Clone, Copy)]
pub(crate) enum Show<'a> {
    /// Which of these kinds of lines it has, and which it lacks.
    Find(&'a str),
    /// How many lines of this kind it has.
    Count(&'a str),
    /// Its first line of this kind.
    First(&'a str),
    /// How many steps it took.
    Steps,
    /// How many tests it took.
    Tests,
}

/// A case, or a document that cases share.
#[derive(Drop)]
pub(crate) struct Block<'a> {
    pub(crate) name: &'a str,
    /// The line of its name.
    pub(crate) line: usize,
    pub(crate) is_case: bool,
    pub(crate) document: Document<'a>,
    pub(crate) certificate: Certificate<'a>,
    /// Whether something is asked, be it no word.
    pub(crate) is_asked: bool,
    pub(crate) words: Vec<&'a str>,
    /// The numbers for which it is run, if it is run more than once.
    pub(crate) turns: Option<Numbers>,
    pub(crate) shows: Vec<Show<'a>>,
}

impl<'a> Block<'a> {
    /// A block of which only the name is known.
    pub(crate) fn new(alloc: Global, name: &'a str, line: usize, is_case: bool) -> Block<'a> {
        Block {
            name,
            line,
            is_case,
            document: Document::new(alloc),
            certificate: Certificate::new(alloc),
            is_asked: false,
            words: Vec::new(alloc),
            turns: None,
            shows: Vec::new(alloc),
        }
    }

    /// Takes over the document, the certificate and the words of another block; `false` where this one has some of its
    /// own.
    pub(crate) fn take_over(&mut self, other: &Block<'a>) -> Result<bool, NoMemory> {
        if self.is_asked || !self.document.is_new() || !self.certificate.is_new() {
            return Ok(false);
        }
        self.document.take_over(&other.document)?;
        self.certificate.take_over(&other.certificate)?;
        self.is_asked = other.is_asked;
        self.words.extend_from_slice(&other.words)?;
        Ok(true)
    }

    /// Takes what a line says; `false` where it is malformed.
    pub(crate) fn take(&mut self, key: Key, rest: &'a str) -> Result<bool, NoMemory> {
        match key {
            Key::Case | Key::Document | Key::Like => Ok(false),
            Key::Axioms => self.document.push_axioms(rest),
            Key::Text => self.document.push_text(rest),
            Key::Lines => self.document.push_lines(rest),
            Key::More => self.document.push_more(rest),
            Key::Blanks => Ok(self.document.fill_to(rest)),
            Key::Empty => Ok(rest.is_empty() && self.document.make_whole()),
            Key::Certificate => self.certificate.push(rest),
            Key::Change => Ok(self.certificate.change(rest)),
            Key::Insert => self.certificate.insert(rest),
            Key::Drop => Ok(self.certificate.drop_line(rest)),
            Key::Keep => Ok(self.certificate.keep(rest)),
            Key::Returns => Ok(rest.is_empty() && self.certificate.put_returns()),
            Key::Unended => Ok(rest.is_empty() && self.certificate.leave_unended()),
            Key::Ask => self.ask(rest),
            Key::Word => self.push_word(rest),
            Key::Budget => self.push_budget(rest),
            Key::Each => Ok(self.take_numbers(rest)),
            Key::Find => self.show(Show::Find(rest), !rest.is_empty()),
            Key::Count => self.show(Show::Count(rest), is_word(rest)),
            Key::First => self.show(Show::First(rest), is_word(rest)),
            Key::Steps => self.show(Show::Steps, rest.is_empty()),
            Key::Tests => self.show(Show::Tests, rest.is_empty()),
        }
    }

    // The first words, in place of those that were taken over.
    fn ask(&mut self, rest: &'a str) -> Result<bool, NoMemory> {
        self.is_asked = true;
        self.words.clear();
        if let Some((job, text)) = rest.split_once(' ') {
            self.words.push(job)?;
            self.words.push(text)?;
        } else if !rest.is_empty() {
            self.words.push(rest)?;
        }
        Ok(true)
    }

    fn push_word(&mut self, word: &'a str) -> Result<bool, NoMemory> {
        self.words.push(word)?;
        Ok(self.is_asked)
    }

    fn push_budget(&mut self, number: &'a str) -> Result<bool, NoMemory> {
        self.words.push("budget")?;
        self.words.push(number)?;
        Ok(self.is_asked && is_word(number))
    }

    fn take_numbers(&mut self, rest: &str) -> bool {
        self.turns = Numbers::read(rest);
        self.is_case && self.turns.is_some()
    }

    fn show(&mut self, show: Show<'a>, is_whole: bool) -> Result<bool, NoMemory> {
        self.shows.push(show)?;
        Ok(is_whole)
    }
}

fn is_word(text: &str) -> bool {
    !text.is_empty() && !text.contains(' ')
}
