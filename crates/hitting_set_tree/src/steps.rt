// Steps from a node to its frame, and from a frame to its children.

ghost use Rattle.std.specs.Prelude.{◌≡◌, ℕ, ◌≤◌, true, false, IfOk, IfSome, IfNone};
ghost use Rattle.std.specs.FinSet as sets;
ghost use Rattle.pinpointing_specs.specs.Smallest.{AreApart};
ghost use Rattle.hitting_set_tree.specs.Territory.{IsNode, IsFrame, Looks, Frames};

use crate::frames::{Frame, Look, Node};
use axiom_sets::AxiomSet;
use lane_sieve::NoMemory;

/// The least number of a set.
fn first_number(set: &AxiomSet) -> Option<u32>
    ensures none { IfNone result ((k : ℕ) → sets.contains set.now.members k ≡ false) }
    ensures member { IfSome result (λ n. sets.contains set.now.members n ≡ true) }
    ensures low { IfSome result (λ n. 1 ≤ n) }
    ensures high { IfSome result (λ n. n ≤ set.now.limit) }
{
    set.numbers().next()
}

/// The set with one number more.
fn with_number(set: &AxiomSet, number: u32) -> Result<AxiomSet, NoMemory>
    requires low { 1 ≤ number }
    requires high { number ≤ set.now.limit }
    ensures limit { IfOk result (λ s. s.limit ≡ set.now.limit) }
    ensures members { IfOk result (λ s. s.members ≡ sets.insert set.now.members number) }
{
    let mut more = set.try_clone()?;
    more.put(number);
    Ok(more)
}

/// The frame of a node with a label that is apart from it.
pub fn frame_of(node: Node, label: &AxiomSet) -> Result<Frame, NoMemory>
    requires node { IsNode node.hit.limit node }
    requires limit { label.now.limit ≡ node.hit.limit }
    requires apart { AreApart label.now.members node.hit.members }
    ensures { IfOk result (Frames node label.now) }
{
    let Node { hit, barred } = node;
    let own = label.try_clone()?;
    let mut ahead = label.try_clone()?;
    ahead.take_all(&barred);
    let mut both = barred;
    both.put_all(label);
    Ok(Frame {
        hit,
        barred: both,
        ahead,
        label: own,
    })
}

/// The next child of a frame. The numbers that are still open are barred from it.
pub fn next_child(frame: &mut Frame) -> Result<Look, NoMemory>
    requires { IsFrame frame.old.hit.limit frame.old }
    ensures { IfOk result (Looks frame.old frame.new) }
{
    let Some(number) = first_number(&frame.ahead) else {
        return Ok(Look::Done);
    };
    let hit = with_number(&frame.hit, number)?;
    frame.ahead.take(number);
    frame.barred.take(number);
    let barred = frame.barred.try_clone()?;
    Ok(Look::Child(Node { hit, barred }))
}
