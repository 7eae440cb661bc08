//! Laws of what a trail says at one moment: its clashes and its blocked nodes.
ghost use Rattle.tableau_specs.specs.StateLaws.{PlainClashIsClash, BlocksSayWhatTheyMean};

/// A plain clash is a clash.
pub fn a_plain_clash_is_a_clash()
    ensures { PlainClashIsClash }
{}

/// The block of a node says of the node, of its parent and of the nodes below what the names of the blocks mean.
pub fn blocks_say_what_they_mean()
    ensures { BlocksSayWhatTheyMean }
{}
