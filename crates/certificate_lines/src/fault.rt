// Where lines stop being the text that they are read as.
ghost use Rattle.std.specs.Prelude.{◌≡◌, ◌+◌, ◌<◌, ◌^◌, length};
ghost use Rattle.certificate_lines.specs.Lines.{bytes_of};
ghost use Rattle.certificate_lines.specs.Malformed.{first_unblank, TellsBlank, clamped_line};

use crate::is_blank;
use shq_terms::NoMemory;
use std::alloc::AllocFailed;
use std::error::Error;
use std::fmt;

/// Why lines are not the text that they are read as.
#[derive(Clone, Copy, Debug, PartialEq, Eq)]
pub enum LineFault {
    /// The number of the first line outside the format. The lines of a certificate have the numbers from 2 on, behind
    /// the line with the answer. A number above 4,294,967,295 is told as 4,294,967,295.
    Malformed(u32),
    NoMemory,
}

impl fmt::Display for LineFault {
    fn fmt<W: fmt::Write>(&self, f: &mut fmt::Formatter<W>) -> fmt::Result {
        match self {
            LineFault::Malformed(line) => write!(f, "line {line} is malformed"),
            LineFault::NoMemory => write!(f, "memory was refused"),
        }
    }
}

impl Error for LineFault {}

impl From<NoMemory> for LineFault {
    ghost use Rattle.std.specs.Prelude.{◌≡◌};
    ghost use Rattle.certificate_lines.specs.declared.fault.LineFault.TheVariants as fault;

    ghost from_gives = { λ _ e. e ≡ fault.NoMemory };

    fn from(_: NoMemory) -> Self {
        LineFault::NoMemory
    }
}

impl<T: Drop> From<AllocFailed<T>> for LineFault {
    ghost use Rattle.std.specs.Prelude.{◌≡◌};
    ghost use Rattle.certificate_lines.specs.declared.fault.LineFault.TheVariants as fault;

    ghost from_gives = { λ _ e. e ≡ fault.NoMemory };

    fn from(_: AllocFailed<T>) -> Self {
        LineFault::NoMemory
    }
}

/// The number of a line as it is told: itself, or 4,294,967,295 where it is above that.
pub fn clamped_line(number: usize) -> u32
    ensures { result ≡ clamped_line number }
{
    u32::try_from(number).unwrap_or(u32::MAX)
}

/// The number of the first line that is not blank, where the first of all has the number that is given.
pub fn first_unblank(lines: &[&[u8]], number: usize) -> Option<usize>
    requires { number + length lines.now < 2 ^ 62 }
    ensures first { result ≡ first_unblank number (bytes_of lines.now) }
    ensures blank { TellsBlank (bytes_of lines.now) result }
{
    for index in 0..lines.len() {
        if !is_blank(lines[index]) {
            return Some(number + index);
        }
    }
    None
}
