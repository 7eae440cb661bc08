// A table of prints, and the places in it whose prints contain a given one.

ghost use Rattle.std.specs.Prelude.{◌≡◌, ◌==◌, ◌<◌, ◌≤◌, [], ◌∷◌, ◌++◌, length, take, drop, slice_set, OnOk, OnErr};
ghost use Rattle.lane_sieve.specs.Words.{is_subset, places};

use crate::block::{BLOCK, is_part_at, is_part_of_none_at};
use shq_base::NoMemory;
use std::alloc::Global;
use std::marker::Model;

/// A table of prints of 256 bits, each in four words. Contracts see the list of the prints by place.
#[derive(Drop)]
pub struct Lanes {
    prints: Vec<[u64; 4]>,

    /// The first words of the prints, side by side.
    firsts: Vec<u64>,
}

impl Model for Lanes {
    ghost use Rattle.std.specs.Prelude.{List, ℕ, ◌<◌, ◌^◌, length};
    ghost use Rattle.lane_sieve.specs.Columns.{AreFirsts};

    ghost Value = { List (List ℕ) };

    ghost view = { λ t. t.prints.items };

    ghost invariant = { λ t. (length t.prints.items < 2 ^ 32) × AreFirsts t.firsts.items t.prints.items };
}

impl Lanes {
    /// A table with no print. It takes no memory.
    pub fn new(alloc: Global) -> Self
        ensures { result ≡ [] }
    {
        Lanes {
            prints: Vec::new(alloc),
            firsts: Vec::new(alloc),
        }
    }

    /// Puts a print last. A table holds at most `u32::MAX` prints, and one more is a request for memory that is
    /// refused.
    pub fn push(&mut self, print: [u64; 4]) -> Result<(), NoMemory>
        ensures ok { OnOk result (self.new ≡ self.old ++ print ∷ []) }
        ensures err { OnErr result (self.new ≡ self.old) }
    {
        if self.prints.len() >= u32::MAX as usize {
            return Err(NoMemory);
        }
        self.firsts.push(print[0])?;
        if self.prints.push(print).is_err() {
            self.firsts.truncate(self.prints.len());
            return Err(NoMemory);
        }
        Ok(())
    }

    /// Puts a print in place of the one at `place`.
    pub fn set(&mut self, place: u32, print: [u64; 4])
        requires { place < length self.old }
        ensures { self.new ≡ slice_set self.old place print }
    {
        self.prints[place as usize] = print;
        self.firsts[place as usize] = print[0];
    }

    /// Keeps the first `len` prints.
    pub fn cut(&mut self, len: u32)
        requires { len ≤ length self.old }
        ensures { self.new ≡ take len self.old }
    {
        self.prints.truncate(len as usize);
        self.firsts.truncate(len as usize);
    }

    /// How many prints the table has.
    pub fn len(&self) -> u32
        ensures { result ≡ length self.now }
    {
        self.prints.len() as u32
    }

    /// Whether the table has no print.
    pub fn is_empty(&self) -> bool
        ensures { result ≡ (length self.now == 0) }
    {
        self.prints.is_empty()
    }
}

/// Writes to the front of `out` the places whose prints contain each bit of `print`, ascending, and answers how many
/// these are. The rest of `out` stays as it was.
pub fn candidates(print: [u64; 4], table: &Lanes, out: &mut [u32]) -> usize
    requires { length table.now ≤ length out.old }
    ensures count { result ≡ length (places 0 print table.now) }
    ensures found { take result out.new ≡ places 0 print table.now }
    ensures rest { drop result out.new ≡ drop result out.old }
{
    let firsts = table.firsts.as_slice();
    let mut at = 0;
    let mut found = 0;
    while firsts.len() - at >= BLOCK {
        if !is_part_of_none_at(print[0], firsts, at) {
            found = write_covered(&print, table, at, at + BLOCK, out, found);
        }
        at += BLOCK;
    }
    write_covered(&print, table, at, firsts.len(), out, found)
}

/// Where the places before `from` that contain `print` stand at the front of `out`, `found` of them, writes after them
/// those from there to before `to`, and answers how many there are then.
#[inline]
fn write_covered(
    print: &[u64; 4],
    table: &Lanes,
    from: usize,
    to: usize,
    out: &mut [u32],
    found: usize,
) -> usize
    requires room { length table.now ≤ length out.old }
    requires order { from ≤ to }
    requires within { to ≤ length table.now }
    requires found { found ≤ from }
    requires before { take found out.old ≡ places 0 print.now (take from table.now) }
    ensures count { result ≤ to }
    ensures more { found ≤ result }
    ensures found { take result out.new ≡ places 0 print.now (take to table.now) }
    ensures rest { drop result out.new ≡ drop result out.old }
{
    let mut found = found;
    for place in from..to {
        if is_covered(print, &table.prints[place]) {
            out[found] = place as u32;
            found += 1;
        }
    }
    found
}

/// Whether each bit of `print` is a bit of `row`.
#[inline]
fn is_covered(print: &[u64; 4], row: &[u64; 4]) -> bool
    ensures { result ≡ is_subset print.now row.now }
{
    is_part_at(print, row, 0)
}
