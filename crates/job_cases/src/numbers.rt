// Numbers in decimal.

use job_runs::NoMemory;
use std::alloc::Global;

/// The digits of a number.
pub(crate) fn decimal(alloc: Global, number: u64) -> Result<String, NoMemory> {
    Ok(format!(in alloc; "{number}")?)
}

/// Puts the digits of a number last.
pub(crate) fn put_decimal(alloc: Global, text: &mut String, number: u64) -> Result<(), NoMemory> {
    let digits = decimal(alloc, number)?;
    text.push_str(digits.as_str())?;
    Ok(())
}
