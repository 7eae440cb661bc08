// What follows from the limits.
ghost use Rattle.ontology_limits.specs.Laws.{SimpleRolesStaySimple, CountsStaySimple, QueryCountsStaySimple};
ghost use Rattle.ontology_limits.specs.Laws.{EachAxiomIsInLimit};

/// A role that is simple by all axioms of an ontology (OWL 2 Structural Specification, section 11.2) is simple by any
/// of them: fewer axioms lead from fewer transitive roles to it.
pub fn simple_roles_stay_simple()
    ensures { SimpleRolesStaySimple }
{}

/// The roles that the axioms of an ontology within the limits count are simple by any of its axioms.
pub fn counts_stay_simple()
    ensures { CountsStaySimple }
{}

/// So are the roles that a query within the limits counts.
pub fn query_counts_stay_simple()
    ensures { QueryCountsStaySimple }
{}

/// Each axiom of an ontology within the limits has cardinalities of 100 at most, and 500,000 parts at most.
pub fn each_axiom_is_in_limit()
    ensures { EachAxiomIsInLimit }
{}
