// Bytes of a text, and its lines.
ghost use Rattle.std.specs.Prelude.{◌≡◌, ◌≤◌, ◌∷◌, [], length};
ghost use Rattle.std.specs.List.{prefix_len};
ghost use Rattle.ofn_tree.specs.Lexemes.{is_whitespace, is_iri_byte, is_name_byte, is_tag_byte, is_comment_byte};
ghost use Rattle.ofn_tree.specs.Lexemes.{is_line_feed, line_feeds, end_line};

pub(crate) fn is_whitespace(byte: u8) -> bool
    ensures { result ≡ is_whitespace byte }
{
    byte == b' ' || byte == b'\t' || byte == b'\n' || byte == b'\r'
}

fn is_iri_byte(byte: u8) -> bool
    ensures { result ≡ is_iri_byte byte }
{
    32 < byte && byte != 127 && byte != b'<' && byte != b'>' && byte != b'"'
}

pub(crate) fn is_name_byte(byte: u8) -> bool
    ensures { result ≡ is_name_byte byte }
{
    32 < byte
        && byte != 127
        && byte != b'('
        && byte != b')'
        && byte != b'='
        && byte != b'<'
        && byte != b'>'
        && byte != b'"'
        && byte != b'#'
        && byte != b'@'
        && byte != b'^'
}

fn is_tag_byte(byte: u8) -> bool
    ensures { result ≡ is_tag_byte byte }
{
    byte.is_ascii_alphanumeric() || byte == b'-'
}

fn is_comment_byte(byte: u8) -> bool
    ensures { result ≡ is_comment_byte byte }
{
    byte != b'\n' && byte != b'\r'
}

fn is_line_feed(byte: u8) -> bool
    ensures { result ≡ is_line_feed byte }
{
    byte == b'\n'
}

// How many line feeds a byte is.
pub(crate) fn feeds_in(byte: u8) -> usize
    ensures value { result ≡ line_feeds (byte ∷ []) }
    ensures within { result ≤ 1 }
{
    if is_line_feed(byte) { 1 } else { 0 }
}

pub(crate) fn iri_len(text: &[u8]) -> usize
    ensures value { result ≡ prefix_len is_iri_byte text.now }
    ensures within { result ≤ length text.now }
{
    text.iter().take_while(|byte| is_iri_byte(**byte)).count()
}

pub(crate) fn name_len(text: &[u8]) -> usize
    ensures value { result ≡ prefix_len is_name_byte text.now }
    ensures within { result ≤ length text.now }
{
    text.iter().take_while(|byte| is_name_byte(**byte)).count()
}

pub(crate) fn tag_len(text: &[u8]) -> usize
    ensures value { result ≡ prefix_len is_tag_byte text.now }
    ensures within { result ≤ length text.now }
{
    text.iter().take_while(|byte| is_tag_byte(**byte)).count()
}

pub(crate) fn comment_len(text: &[u8]) -> usize
    ensures value { result ≡ prefix_len is_comment_byte text.now }
    ensures within { result ≤ length text.now }
{
    text.iter()
        .take_while(|byte| is_comment_byte(**byte))
        .count()
}

fn line_feeds(text: &[u8]) -> usize
    ensures value { result ≡ line_feeds text.now }
    ensures within { result ≤ length text.now }
{
    text.iter().filter(|byte| is_line_feed(**byte)).count()
}

/// The most bytes of a text: the numbers of its lines are below 2^32 - 1.
pub const MAX_BYTES: usize = 4_294_967_293;

/// The line on which a text ends: 1 plus the number of its line feeds.
pub fn end_line(text: &[u8]) -> u32
    requires { length text.now ≤ MAX_BYTES }
    ensures { result ≡ end_line text.now }
{
    1 + line_feeds(text) as u32
}
