// New lists of words.

ghost use Rattle.std.specs.Prelude.{◌≡◌, IfOk, replicate};

use shq_base::NoMemory;
use std::alloc::Global;

/// A list of `len` words, each of which is `word`.
pub fn repeat_word(alloc: Global, word: u64, len: usize) -> Result<Vec<u64>, NoMemory>
    ensures { IfOk result (λ made. made.items ≡ replicate len word) }
{
    Ok(vec![in alloc; word; len]?)
}

/// The same words once more.
pub fn copy_words(alloc: Global, words: &[u64]) -> Result<Vec<u64>, NoMemory>
    ensures { IfOk result (λ made. made.items ≡ words.now) }
{
    Ok(words.to_vec(alloc)?)
}
