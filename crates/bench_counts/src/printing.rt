// What is printed, piece by piece.

use std::io;

pub(crate) fn print_text(rt: &impl Print, text: &str) -> io::Result<()> {
    print!(rt; "{text}")
}

/// Prints a number, and a text behind it.
pub(crate) fn print_number(rt: &impl Print, number: u64, text: &str) -> io::Result<()> {
    print!(rt; "{number}")?;
    print_text(rt, text)
}
