// Traces that go back. Whether their lines are those of a search is no matter here.
use search_trace::{Back, Deps, Line, NoMemory, Trace};
use std::alloc::Global;
use std::test::Fail;

// The mark of a new branching with one alternative left.
fn open(trace: &mut Trace, alloc: Global, line: Line, marks: Deps) -> Result<Deps, NoMemory> {
    let number = trace.open(line, marks, 1)?;
    Deps::one(alloc, number)
}

// The mark of the branching that turns.
fn back(trace: &mut Trace, alloc: Global, used: Deps) -> Result<Option<u32>, NoMemory> {
    match trace.go_back(alloc, used)? {
        Back::Turned { mark, marks } if marks.has(mark) => Ok(Some(mark)),
        _ => Ok(None),
    }
}

// A clash that rests on these marks, and where that leads.
fn clash(
    trace: &mut Trace,
    alloc: Global,
    line: Line,
    marks: &Deps,
) -> Result<Option<u32>, NoMemory> {
    trace.put(line, marks.try_clone()?)?;
    back(trace, alloc, marks.try_clone()?)
}

// A branching in the first alternative of the outer one. Its own first alternative is closed by a line that rests on
// both.
fn clash_in(trace: &mut Trace, alloc: Global, outer: &Deps) -> Result<Option<u32>, NoMemory> {
    let marks = outer.try_clone()?;
    let inner = open(trace, alloc, Line::Pair(1, 2), marks)?;
    let both = outer.union(alloc, &inner)?;
    clash(trace, alloc, Line::Clash(1, 1), &both)
}

fn clash_in_both(trace: &mut Trace, alloc: Global) -> Result<Option<u32>, NoMemory> {
    let outer = open(trace, alloc, Line::Or(0, 6), Deps::none())?;
    clash_in(trace, alloc, &outer)
}

fn clash_by_inner(trace: &mut Trace, alloc: Global) -> Result<Option<u32>, NoMemory> {
    let inner = Deps::one(alloc, 1)?;
    clash(trace, alloc, Line::Clash(2, 1), &inner)
}

// The inner branching turns, and is closed as a whole, which rests on the outer one. That turns, and its second
// alternative is closed without it: so it is taken out, with all that its first one said.
fn goes_back(trace: &mut Trace, alloc: Global) -> Result<bool, NoMemory> {
    let is_inner = clash_in_both(trace, alloc)? == Some(1);
    let is_outer = clash_by_inner(trace, alloc)? == Some(0) && trace.next_number() == 4;
    let last = clash(trace, alloc, Line::Bottom(0), &Deps::none())?;
    let is_closed = last == None && trace.open_count() == 0;
    Ok(is_inner && is_outer && is_closed)
}

// A branching that is taken out, with the one of the lines behind it that rests on it.
fn put_stripped(trace: &mut Trace, alloc: Global) -> Result<bool, NoMemory> {
    trace.put(Line::SomeOf(0, 1, 4), Deps::none())?;
    let resting = open(trace, alloc, Line::Choose(0, 5), Deps::none())?;
    trace.put(Line::And(0, 3), resting)?;
    Ok(clash(trace, alloc, Line::Clash(1, 2), &Deps::none())? == None)
}

/// A walk of the tests.
#[derive(Clone, Copy)]
enum Walk {
    /// Two branchings.
    Back,
    /// One that is taken out.
    Stripped,
}

fn are_left(lines: &[Line], walk: Walk) -> bool {
    match walk {
        Walk::Back => matches!(lines, [Line::Start, Line::Bottom(0)]),
        Walk::Stripped => matches!(
            lines,
            [Line::Start, Line::SomeOf(0, 1, 4), Line::Clash(1, 2)]
        ),
    }
}

fn go(trace: &mut Trace, alloc: Global, walk: Walk) -> Result<bool, NoMemory> {
    match walk {
        Walk::Back => goes_back(trace, alloc),
        Walk::Stripped => put_stripped(trace, alloc),
    }
}

// Whether the walk goes as it should, and the lines that it leaves.
fn gone(alloc: Global, walk: Walk) -> Result<(bool, Vec<Line>), NoMemory> {
    let mut trace = Trace::new(alloc);
    let is_so = go(&mut trace, alloc, walk)?;
    Ok((is_so, trace.into_lines(alloc)?))
}

fn is_walk(alloc: Global, walk: Walk) -> Result<bool, NoMemory> {
    let (is_so, lines) = gone(alloc, walk)?;
    let are_left = are_left(&lines, walk);
    Ok(is_so && are_left)
}

#[test]
fn branchings_turn_close_and_are_taken_out(rt: HostRuntime) -> Result<(), Fail> {
    assert!(rt; is_walk(rt.alloc(), Walk::Back)?, "two branchings");
    assert!(rt;
        is_walk(rt.alloc(), Walk::Stripped)?,
        "one that is taken out"
    );
    Ok(())
}
