// The trace of a search.
ghost use Rattle.std.specs.Prelude.{◌≡◌, ◌∷◌, [], IfOk, OnOk, length, map};
ghost use Rattle.calculus_specs.specs.Line.Line.{start_line};
ghost use Rattle.refutation_tree.specs.RuleLine.{line_of};
ghost use Rattle.search_trace.specs.Trace.{begun, lines_in, with_line, with_branching, turned_back, answer_of, is_turn};

use crate::lines::TraceLine;
use crate::opens::{Back, OpenBranching, comes_to_turn, go_over, turn_latest};
use crate::{Deps, Line, NoMemory};
use std::alloc::Global;
use std::marker::Model;

/// The rule lines of a search in preorder, behind `start`, each with its number and the marks that it rests on, and the
/// branchings that are open. Contracts see the number of the next line, the lines, and the branchings, the latest
/// first.
#[derive(Drop)]
pub struct Trace {
    next: u32,
    lines: Vec<TraceLine>,
    opens: Vec<OpenBranching>,
}

impl Model for Trace {
    ghost use Rattle.std.specs.Prelude.{length, map, reverse};
    ghost use Rattle.std.specs.Coded.{codes};
    ghost use Rattle.refutation_tree.specs.Deps as deps;
    ghost use Rattle.search_trace.specs.Trace.{TraceLists, ArePlaced, noted};

    ghost Value = { TraceLists };

    ghost coded = { Prim.hlevel (codes, deps.the_row.coded) };

    ghost view = { λ t. record {
      next = t.next;
      lines = map noted t.lines.items;
      opens = reverse t.opens.items;
    } };

    ghost invariant = { λ t. ArePlaced (length t.lines.items) (reverse t.opens.items) };
}

impl Trace {
    /// A search that has begun: no line but `start`.
    pub fn new(alloc: Global) -> Trace
        ensures { result ≡ begun }
    {
        Trace {
            next: 0,
            lines: Vec::new(alloc),
            opens: Vec::new(alloc),
        }
    }

    /// The number of the next line.
    pub fn next_number(&self) -> u32
        ensures { result ≡ self.now.next }
    {
        self.next
    }

    /// How many lines there are behind `start`.
    pub fn line_count(&self) -> usize
        ensures { result ≡ length self.now.lines }
    {
        self.lines.len()
    }

    /// How many branchings are open.
    pub fn open_count(&self) -> usize
        ensures { result ≡ length self.now.opens }
    {
        self.opens.len()
    }

    /// Puts a line that does not branch, and rests on these marks. Answers its number.
    ///
    /// # Errors
    ///
    /// Out of memory, or of numbers. The trace serves no more then.
    #[tactic(auto, using(crate::proofs::Going::placed_more))]
    pub fn put(&mut self, line: Line, marks: Deps) -> Result<u32, NoMemory>
        ensures number { IfOk result (λ n. n ≡ self.old.next) }
        ensures put { OnOk result (self.new ≡ with_line self.old (line_of line) marks) }
    {
        let number = self.next;
        if number == u32::MAX {
            return Err(NoMemory);
        }
        self.lines.push(TraceLine {
            number,
            line,
            marks,
        })?;
        self.next = number + 1;
        Ok(number)
    }

    /// Puts a line that branches, and rests on these marks. It is open from then on at its first alternative, and as
    /// many alternatives are left. Answers its number, which is its mark.
    ///
    /// # Errors
    ///
    /// Out of memory, or of numbers. The trace serves no more then.
    pub fn open(&mut self, line: Line, marks: Deps, left: u32) -> Result<u32, NoMemory>
        ensures number { IfOk result (λ n. n ≡ self.old.next) }
        ensures opened { OnOk result (self.new ≡ with_branching self.old (line_of line) marks left) }
    {
        let at = self.lines.len();
        let shared = marks.try_clone()?;
        let mark = self.put(line, marks)?;
        self.opens.push(OpenBranching {
            mark,
            at,
            child: at + 1,
            left,
            marks: shared,
            gathered: Deps::none(),
        })?;
        Ok(mark)
    }

    /// Whether [`Trace::go_back`] with these marks turns to a next alternative. If not, it closes everything.
    ///
    /// # Errors
    ///
    /// Out of memory.
    #[tactic(auto, using(crate::proofs::Going::turns_as_it_goes))]
    pub fn turns(&self, alloc: Global, used: Deps) -> Result<bool, NoMemory>
        ensures { IfOk result (λ b. b ≡ is_turn (answer_of self.now used)) }
    {
        comes_to_turn(alloc, &self.opens, used)
    }

    /// Goes back from the open child of the latest branching, which is closed, and that rests on the marks `used`. A
    /// branching on whose mark closing does not rest is taken out, and its open child stands in its place without the
    /// lines that rest on it. One that has no alternative left is closed as a whole. The first other one turns to its
    /// next alternative.
    ///
    /// # Errors
    ///
    /// Out of memory. The trace serves no more then.
    pub fn go_back(&mut self, alloc: Global, used: Deps) -> Result<Back, NoMemory>
        ensures answer { IfOk result (λ b. b ≡ answer_of self.old used) }
        ensures back { OnOk result (self.new ≡ turned_back self.old used) }
    {
        let used = go_over(alloc, &mut self.lines, &mut self.opens, used)?;
        turn_latest(alloc, &mut self.opens, self.lines.len(), &used)
    }

    /// The lines by themselves, behind `start`.
    ///
    /// # Errors
    ///
    /// Out of memory.
    pub fn into_lines(self, alloc: Global) -> Result<Vec<Line>, NoMemory>
        ensures { IfOk result (λ ls. map line_of ls.items ≡ start_line ∷ lines_in self) }
    {
        let Trace { lines, .. } = self;
        let mut all = Vec::new(alloc);
        all.push(Line::Start)?;
        for line in lines {
            let TraceLine { line, .. } = line;
            all.push(line)?;
        }
        Ok(all)
    }
}
