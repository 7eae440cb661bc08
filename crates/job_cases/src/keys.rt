// The keys of lines.

/// What a line says.
#[derive(Clone, Copy)]
pub(crate) enum Key {
    Case,
    Document,
    Like,
    Axioms,
    Text,
    Lines,
    More,
    Blanks,
    Empty,
    Certificate,
    Change,
    Insert,
    Drop,
    Keep,
    Returns,
    Unended,
    Ask,
    Word,
    Budget,
    Each,
    Find,
    Count,
    First,
    Steps,
    Tests,
}

const KEYS: &[(&str, Key)] = &[
    ("case", Key::Case),
    ("document", Key::Document),
    ("like", Key::Like),
    ("axioms", Key::Axioms),
    ("text", Key::Text),
    ("lines", Key::Lines),
    ("more", Key::More),
    ("blanks", Key::Blanks),
    ("empty", Key::Empty),
    ("certificate", Key::Certificate),
    ("change", Key::Change),
    ("insert", Key::Insert),
    ("drop", Key::Drop),
    ("keep", Key::Keep),
    ("returns", Key::Returns),
    ("unended", Key::Unended),
    ("ask", Key::Ask),
    ("word", Key::Word),
    ("budget", Key::Budget),
    ("each", Key::Each),
    ("find", Key::Find),
    ("count", Key::Count),
    ("first", Key::First),
    ("steps", Key::Steps),
    ("tests", Key::Tests),
];

/// The key that this word is; `None` where it is none.
pub(crate) fn key_of(word: &str) -> Option<Key> {
    for (name, key) in KEYS {
        if *name == word {
            return Some(*key);
        }
    }
    None
}
