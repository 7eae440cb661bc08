// The fields of a line: numbers, names, and what is made of them.
ghost use Rattle.std.specs.Prelude.{◌≡◌, map, Some, IfOk, IfErr};
ghost use Rattle.certificate_lines.specs.Lines.{bytes_of};
ghost use Rattle.refutation_tree.specs.RefutationText.{numbers_in, class_in, restriction_in, counted_in, one_of};
ghost use Rattle.refutation_tree.specs.RefutationText.{two_of, three_of};
ghost use Rattle.certificate_lines.specs.Names.{name_place};
ghost use Rattle.certificate_lines.specs.Malformed.{IsFaultAt};

use crate::CertFault;
use certificate_lines::{Ontology, iri, number};
use std::alloc::Global;

/// A role and the number of a concept.
#[derive(Clone, Copy, Debug)]
pub(crate) struct Restriction {
    pub(crate) role: u32,
    pub(crate) filler: u32,
}

/// A restriction with its cardinality.
#[derive(Clone, Copy, Debug)]
pub(crate) struct Counted {
    pub(crate) count: u32,
    pub(crate) rest: Restriction,
}

/// The numbers that words are, on the line whose number is given.
pub(crate) fn read_numbers(alloc: Global, words: &[&[u8]], line: u32) -> Result<Vec<u32>, CertFault>
    ensures numbers { IfOk result (λ ns. numbers_in (bytes_of words.now) ≡ Some ns.items) }
    ensures fault { IfErr result (IsFaultAt line (numbers_in (bytes_of words.now))) }
{
    let mut numbers = Vec::new(alloc);
    for word in words {
        let Some(value) = number(word) else {
            return Err(CertFault::Malformed(line));
        };
        numbers.push(value)?;
    }
    Ok(numbers)
}

/// The class that the only word names.
pub(crate) fn class_in(words: &[&[u8]], ontology: &Ontology) -> Option<u32>
    ensures { result ≡ class_in ontology.now (bytes_of words.now) }
{
    match words {
        [name] => ontology.class_of_bytes(iri(name)?),
        _ => None,
    }
}

fn role_in(word: &[u8], ontology: &Ontology) -> Option<u32>
    ensures { result ≡ name_place ontology.now.roles word.now }
{
    ontology.role_of_bytes(iri(word)?)
}

/// The role and the concept that two words are.
pub(crate) fn restriction_in(words: &[&[u8]], ontology: &Ontology) -> Option<Restriction>
    ensures { result ≡ restriction_in ontology.now (bytes_of words.now) }
{
    match words {
        [name, concept] => {
            let role = role_in(name, ontology)?;
            let filler = number(concept)?;
            Some(Restriction { role, filler })
        }
        _ => None,
    }
}

/// The cardinality, the role and the concept that three words are.
pub(crate) fn counted_in(words: &[&[u8]], ontology: &Ontology) -> Option<Counted>
    ensures { result ≡ counted_in ontology.now (bytes_of words.now) }
{
    match words {
        [first, others @ ..] => {
            let count = number(first)?;
            let rest = restriction_in(others, ontology)?;
            Some(Counted { count, rest })
        }
        _ => None,
    }
}

/// The only one of these numbers.
pub(crate) fn one_of(numbers: &[u32]) -> Option<u32>
    ensures { result ≡ one_of numbers.now }
{
    match numbers {
        [x] => Some(*x),
        _ => None,
    }
}

/// These two numbers.
pub(crate) fn two_of(numbers: &[u32]) -> Option<(u32, u32)>
    ensures { result ≡ two_of numbers.now }
{
    match numbers {
        [x, y] => Some((*x, *y)),
        _ => None,
    }
}

/// These three numbers.
pub(crate) fn three_of(numbers: &[u32]) -> Option<(u32, u32, u32)>
    ensures { result ≡ three_of numbers.now }
{
    match numbers {
        [x, y, z] => Some((*x, *y, *z)),
        _ => None,
    }
}
