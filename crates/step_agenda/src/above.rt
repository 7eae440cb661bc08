// From which nodes edges lead to a node. If its representative is no first node, from its parent alone; otherwise from
// the beginnings of the edges that are given into the nodes that are joined with it.
ghost use Rattle.std.specs.Prelude.{◌≡◌, ◌<◌};

use step_finders::State;

/// The representative of a node's parent, which first nodes do not have.
pub(crate) fn above<S: State>(state: &S, node: u32) -> Option<u32> {
    if node >= state.nodes() {
        return None;
    }
    let parent = state.parent(node)?;
    Some(state.representative(parent))
}

/// The nodes that are joined with a node, itself included.
pub(crate) fn members_at<S: State>(state: &S, node: u32) -> &[u32] {
    if node >= state.nodes() {
        return &[];
    }
    state.members(node)
}
