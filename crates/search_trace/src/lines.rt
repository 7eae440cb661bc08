// Lines of a trace, out of which some are taken.
ghost use Rattle.std.specs.Prelude.{◌≡◌, ◌≤◌, ◌+◌, ◌-◌, ◌++◌, length, take, drop, filter};
ghost use Rattle.search_trace.specs.Lines.{stays};

use crate::{Deps, Line};

/// A line of the trace, with its number and the marks that it rests on.
#[derive(Drop)]
pub(crate) struct TraceLine {
    pub(crate) number: u32,
    pub(crate) line: Line,
    pub(crate) marks: Deps,
}

// Whether the line does not rest on the mark.
fn is_kept(line: &TraceLine, mark: u32) -> bool
    ensures { result ≡ stays mark line.now }
{
    !line.marks.has(mark)
}

// Puts the lines that do not rest on the mark first, in their order, and answers how many they are.
fn keep_others(lines: &mut [TraceLine], mark: u32) -> usize
    ensures kept { take result lines.new ≡ filter (stays mark) lines.old }
    ensures within { result ≤ length lines.new }
    ensures same { length lines.new ≡ length lines.old }
{
    let mut count = 0;
    for i in 0..lines.len() {
        if is_kept(&lines[i], mark) {
            lines.swap(count, i);
            count += 1;
        }
    }
    count
}

// Does so from `child` on, and leaves the lines before.
fn keep_others_from(lines: &mut [TraceLine], child: usize, mark: u32) -> usize
    requires { child ≤ length lines.old }
    ensures before { take child lines.new ≡ take child lines.old }
    ensures kept { take result (drop child lines.new) ≡ filter (stays mark) (drop child lines.old) }
    ensures within { child + result ≤ length lines.new }
    ensures same { length lines.new ≡ length lines.old }
{
    keep_others(&mut lines[child..], mark)
}

// Puts the lines from `at` to `child` behind all others.
fn put_last(lines: &mut [TraceLine], at: usize, child: usize)
    requires order { at ≤ child }
    requires within { child ≤ length lines.old }
    ensures same { length lines.new ≡ length lines.old }
    ensures moved { lines.new ≡ take at lines.old ++ (drop child lines.old ++ take (child - at) (drop at lines.old)) }
{
    lines[at..].rotate_left(child - at);
}

// Puts the lines before `at` first, and then those from `child` on that do not rest on the mark. Answers how many these
// are.
#[tactic(auto, using(crate::proofs::Moved::removed))]
fn put_first(lines: &mut [TraceLine], at: usize, child: usize, mark: u32) -> usize
    requires order { at ≤ child }
    requires within { child ≤ length lines.old }
    ensures kept { take (at + result) lines.new ≡ take at lines.old ++ filter (stays mark) (drop child lines.old) }
    ensures within { at + result ≤ length lines.new }
    ensures same { length lines.new ≡ length lines.old }
{
    let kept = keep_others_from(lines, child, mark);
    put_last(lines, at, child);
    kept
}

/// Takes out the lines from `at` to `child`, and those from `child` on that rest on the mark, in one pass over these.
pub(crate) fn take_out(lines: &mut Vec<TraceLine>, at: usize, child: usize, mark: u32)
    requires order { at ≤ child }
    requires within { child ≤ length lines.old.items }
    ensures { lines.new.items ≡ take at lines.old.items ++ filter (stays mark) (drop child lines.old.items) }
{
    let kept = put_first(lines, at, child, mark);
    lines.truncate(at + kept);
}
