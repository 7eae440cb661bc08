// A state of a search together with its rules.
ghost use Rattle.std.specs.Prelude.{◌≡◌};

use crate::{Rules, State};

/// A state of a search together with the concepts, roles, rows and given facts that the search uses. Finders look for
/// steps in these.
#[derive(Drop)]
pub struct StateWithRules<'a, S: State, R: Rules> {
    /// The state.
    pub state: &'a S,
    /// The rules.
    pub rules: &'a R,
    // The rules say how many nodes of the state are first ones.
    pub ghost one_first: { S.first state.now ≡ (R.context rules.now).first },
}
