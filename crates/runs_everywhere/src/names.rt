// Taxonomies, types, instances and their reasons.
ghost use Rattle.runs_everywhere.specs.Laws.{TaxonomiesHoldIn, TypesHoldIn, InstancesHoldIn, ReasonsHoldIn};

use crate::World;

/// The taxonomy that `classify` prints is that of which class is part of which in every world.
pub fn taxonomies_hold_everywhere<W: World>()
    ensures { TaxonomiesHoldIn W.world }
{}

/// The types that `realize` prints are those of each individual in every world.
pub fn types_hold_everywhere<W: World>()
    ensures { TypesHoldIn W.world }
{}

/// The individuals that `instances` prints are just those that are in the class expression in every world.
pub fn instances_hold_everywhere<W: World>()
    ensures { InstancesHoldIn W.world }
{}

/// So are those that `why` prints, and their sets are exactly the smallest from which that follows in every world.
pub fn reasons_hold_everywhere<W: World>()
    ensures { ReasonsHoldIn W.world }
{}
