// The words of the command line.
ghost use Rattle.std.specs.Prelude.{◌≢◌, IfOk, IfErr, IsOk};
ghost use Rattle.std.specs.Iterator.{IsFinite};
ghost use Rattle.std.specs.IoError.{error_kind};
ghost use Rattle.std.specs.declared.io.ErrorKind.TheVariants.{OutOfMemory};
ghost use Rattle.ontology_cli.specs.Words.{IsRestAfterFirst, AreWordsOf};

use std::alloc::{AllocError, Global};
use std::io;

/// The words among the program's arguments: all of them, each whole, but for the first, which is the program's name.
/// Where some argument is no text there are none, and so no job.
///
/// # Errors
///
/// Out of memory.
pub(crate) fn words_of<I: Iterator<Item = String> + Drop>(
    alloc: Global,
    args: io::Result<I>,
) -> Result<Vec<String>, AllocError>
    requires can { IfOk args I.can_next }
    requires ends { IfOk args (λ a. IsFinite (I.remaining a)) }
    ensures words { IfOk result (λ words. AreWordsOf I.next_gives args words.items) }
    ensures no_text { IfErr args (λ e. error_kind e ≢ OutOfMemory → IsOk result) }
{
    match args {
        Ok(args) => words_after_name(alloc, args),
        Err(error) if error.kind() == io::ErrorKind::OutOfMemory => Err(AllocError),
        Err(_) => Ok(Vec::new(alloc)),
    }
}

// All arguments after the first, in order.
fn words_after_name<I: Iterator<Item = String> + Drop>(
    alloc: Global,
    args: I,
) -> Result<Vec<String>, AllocError>
    requires can { I.can_next args }
    requires ends { IsFinite (I.remaining args) }
    ensures { IfOk result (λ words. IsRestAfterFirst I.next_gives args words.items) }
{
    let mut words: Vec<String> = args.collect(alloc)?;
    if !words.is_empty() {
        words.remove(0);
    }
    Ok(words)
}
