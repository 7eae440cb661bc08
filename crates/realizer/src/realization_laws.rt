// What follows of instances and types.
ghost use Rattle.realizer.specs.RealizationLaws.{InstanceQuestionsAreInLimit, InstancesAreOne, TypesAreOne};

/// Where an ontology and a query are within the limits, each question whether a listed individual is in the query's
/// subclass is so too.
pub fn instance_questions_are_in_limit()
    ensures { InstanceQuestionsAreInLimit }
{}

/// The instances of a class expression are one list.
pub fn instances_are_one()
    ensures { InstancesAreOne }
{}

/// The types of an ontology are one realization.
pub fn types_are_one()
    ensures { TypesAreOne }
{}
