// Laws of relations.
ghost use Rattle.subsumption.specs.RelationLaws.{FirstIsOrder, RelatingKeepsOrder, SubsumptionIsOne};

/// The relation of a new [`Relation`](crate::Relation) is reflexive and transitive.
pub fn first_is_order()
    ensures { FirstIsOrder }
{}

/// If a relation is reflexive and transitive, it stays so when [`relate`](crate::Relation::relate) adds to it.
pub fn relating_keeps_order()
    ensures { RelatingKeepsOrder }
{}

/// There is one relation that says which class is included in which.
pub fn subsumption_is_one()
    ensures { SubsumptionIsOne }
{}
