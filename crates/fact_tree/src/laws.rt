// Laws of lists of facts.
ghost use Rattle.fact_tree.specs.Laws.{FactsStay};

/// What a node has, which edges there are, which nodes are apart and which are one stays so when facts are added.
pub fn facts_stay()
    ensures { FactsStay }
{}
