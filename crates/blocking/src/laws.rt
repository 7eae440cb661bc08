// What a caller needs to know of blocks that were found earlier.
ghost use Rattle.blocking.specs.Laws.{GoingOnKeepsBlocks, GoingBackKeepsBlocks, CurrentIsBelow, LessIsBelow};
ghost use Rattle.blocking.specs.Laws.{NothingIsBelow};

/// Which of the blocks that were found stand when facts are put, and when they are taken back.
pub fn blocks_stay()
    ensures on { GoingOnKeepsBlocks }
    ensures back { GoingBackKeepsBlocks }
    ensures all { CurrentIsBelow }
    ensures less { LessIsBelow }
    ensures none { NothingIsBelow }
{}
