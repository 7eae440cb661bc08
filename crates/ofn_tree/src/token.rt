// Tokens and their kinds.

/// What a token is.
#[derive(Clone, Copy, Debug, PartialEq, Eq)]
pub enum Kind {
    /// `(`
    OpenBracket,
    /// `)`
    CloseBracket,
    /// `=`
    Equals,
    /// `<`, an IRI and `>`
    Iri,
    /// A string between quotation marks.
    String,
    /// `@` and a language tag.
    Tag,
    /// `^^`
    Carets,
    /// A name, as a keyword, an abbreviated IRI or a number.
    Name,
}

/// A token, which borrows its part of the text.
#[derive(Clone, Copy, Debug)]
pub struct Token<'a> {
    pub kind: Kind,
    /// The token's bytes. Those of an IRI stand between its `<` and its `>`, those of a string between its quotation
    /// marks, with its backslashes.
    pub text: &'a str,
    /// The place of the token's first byte in the text.
    pub start: usize,
    /// The line of that byte: 1 plus the number of line feeds before it.
    pub line: u32,
}
