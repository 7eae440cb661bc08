// What stands after a document.
ghost use Rattle.std.specs.Prelude.{◌≡◌, ◌≢◌, ℕ, ◌<◌, ◌≤◌, true, false, length, slice_index, IsSome, IsNone, IfSome};
ghost use Rattle.std.specs.List.{prefix_len};
ghost use Rattle.ofn_tree.specs.Lexemes.{is_whitespace, is_comment_byte};
ghost use Rattle.job_inputs.specs.Rest.{IsOnlyGap, IsStray, Skips};

/// The place of the first byte that is neither whitespace nor part of a comment.
pub fn first_stray(text: &[u8]) -> Option<usize>
    ensures none { IsNone result → IsOnlyGap text.now }
    ensures some { IfSome result (IsStray text.now) }
{
    let mut place = 0;
    while place < text.len() {
        let len = gap_len(&text[place..]);
        if len == 0 {
            return Some(place);
        }
        place += len;
    }
    None
}

// How many bytes the whitespace or the comment at the front has; none where there is neither.
fn gap_len(text: &[u8]) -> usize
    requires { 0 < length text.now }
    ensures within { result ≤ length text.now }
    ensures none { result ≡ 0 → IsStray text.now 0 }
    ensures some { 0 < result → Skips text.now result }
{
    if is_whitespace(text[0]) {
        1
    } else if text[0] == b'#' {
        1 + comment_len(&text[1..])
    } else {
        0
    }
}

fn is_whitespace(byte: u8) -> bool
    ensures { result ≡ is_whitespace byte }
{
    byte == b' ' || byte == b'\t' || byte == b'\n' || byte == b'\r'
}

fn is_comment_byte(byte: u8) -> bool
    ensures { result ≡ is_comment_byte byte }
{
    byte != b'\n' && byte != b'\r'
}

fn comment_len(text: &[u8]) -> usize
    ensures value { result ≡ prefix_len is_comment_byte text.now }
    ensures within { result ≤ length text.now }
{
    text.iter()
        .take_while(|byte| is_comment_byte(**byte))
        .count()
}
