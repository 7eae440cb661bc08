// Cases that are run once for each of some numbers.

use job_runs::Failing;

/// What varies from run to run of a case.
#[derive(Clone, Copy)]
enum Kind {
    Budget,
    Cut,
    Drop,
    Keep,
    Read,
    Spoil,
    Write,
}

const KINDS: &[(&str, Kind)] = &[
    ("budget", Kind::Budget),
    ("cut", Kind::Cut),
    ("drop", Kind::Drop),
    ("keep", Kind::Keep),
    ("read", Kind::Read),
    ("spoil", Kind::Spoil),
    ("write", Kind::Write),
];

/// The numbers for which a case is run, from the first to the last.
#[derive(Clone, Copy)]
pub(crate) struct Numbers {
    kind: Kind,
    pub(crate) first: u32,
    pub(crate) last: u32,
}

/// How one run of a case differs from the case.
#[derive(Clone, Copy)]
pub(crate) struct Turn {
    /// What is printed behind the name.
    pub(crate) number: Option<u32>,
    /// The words that give this budget stand behind the others.
    pub(crate) budget: Option<u32>,
    /// How many bytes the input has at most.
    pub(crate) bytes: usize,
    /// How many lines the certificate has at most.
    pub(crate) lines: usize,
    /// Which line of the certificate is left out, counted from 1.
    pub(crate) dropped: Option<u32>,
    /// Which line of it has a word more.
    pub(crate) spoiled: Option<u32>,
    /// Which call fails.
    pub(crate) failing: Failing,
}

impl Turn {
    /// The case as it stands.
    pub(crate) const PLAIN: Turn = Turn {
        number: None,
        budget: None,
        bytes: usize::MAX,
        lines: usize::MAX,
        dropped: None,
        spoiled: None,
        failing: Failing::Nothing,
    };
}

impl Numbers {
    /// What a line says: the kind, the first number and the last one; `None` where it is malformed.
    pub(crate) fn read(rest: &str) -> Option<Numbers> {
        let (word, numbers) = rest.split_once(' ')?;
        let (first, last) = numbers.split_once(' ')?;
        let kind = kind_of(word)?;
        let first = first.parse::<u32>().ok()?;
        let last = last.parse::<u32>().ok()?;
        if first <= last {
            Some(Numbers { kind, first, last })
        } else {
            None
        }
    }

    /// The run of this number.
    pub(crate) fn turn(self, number: u32) -> Turn {
        let plain = Turn {
            number: Some(number),
            ..Turn::PLAIN
        };
        match self.kind {
            Kind::Budget => Turn {
                budget: Some(number),
                ..plain
            },
            Kind::Cut => Turn {
                bytes: number as usize,
                ..plain
            },
            Kind::Drop => Turn {
                dropped: Some(number),
                ..plain
            },
            Kind::Keep => Turn {
                lines: number as usize,
                ..plain
            },
            Kind::Read => Turn {
                failing: Failing::Read(number),
                ..plain
            },
            Kind::Spoil => Turn {
                spoiled: Some(number),
                ..plain
            },
            Kind::Write => Turn {
                failing: Failing::Write(number),
                ..plain
            },
        }
    }
}

fn kind_of(word: &str) -> Option<Kind> {
    for (name, kind) in KINDS {
        if *name == word {
            return Some(*kind);
        }
    }
    None
}
