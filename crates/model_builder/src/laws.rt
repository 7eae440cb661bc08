// Why the structure of a trail gives the interpretation of the trail.
ghost use Rattle.model_builder.specs.Laws.{StructuresAreBuilt};

/// Within the limits of an ontology, the interpretation of the structure of a trail is the interpretation of the trail.
pub fn structures_are_built()
    ensures { StructuresAreBuilt }
{}
