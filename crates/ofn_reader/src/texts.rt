// The items of a text.
ghost use Rattle.std.specs.Prelude.{◌≡◌, ◌≤◌, IfOk, IfErr, length};
ghost use Rattle.ofn_reader.specs.Refusals.{refusal_of};
ghost use Rattle.ofn_reader.specs.Texts.{HasItems, TextIsRefused};

use ofn_expressions::Refusal;
use ofn_tree::{MAX_BYTES, TextFault, Tree, end_line, tokens, tree};
use std::alloc::Global;

fn refusal_of(fault: TextFault) -> Refusal
    ensures { result ≡ refusal_of fault }
{
    match fault {
        TextFault::NoMemory => Refusal::NoMemory,
        fault => Refusal::Text(fault),
    }
}

/// The items of a text, and the place after the last byte that was read.
///
/// # Errors
///
/// The first fault of the text, and `NoMemory`.
pub(crate) fn read_items(alloc: Global, text: &[u8]) -> Result<(Vec<Tree<'_>>, usize), Refusal>
    requires { length text.now ≤ MAX_BYTES }
    ensures made { IfOk result (λ r. HasItems text.now r.0.items r.1) }
    ensures within { IfOk result (λ r. r.1 ≤ length text.now) }
    ensures refused { IfErr result (TextIsRefused text.now) }
{
    let (tokens, end) = match tokens(alloc, text) {
        Ok(cut) => cut,
        Err(fault) => return Err(refusal_of(fault)),
    };
    match tree(alloc, &tokens, end_line(text)) {
        Ok(items) => Ok((items, end)),
        Err(fault) => Err(refusal_of(fault)),
    }
}
