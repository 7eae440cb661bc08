// Texts that were written by hand.
ghost use Rattle.std.specs.Prelude.{◌≡◌, codes};
ghost use Rattle.ofn_writer.specs.Canonical.{concept_text, axiom_text, ontology_text};
ghost use Rattle.ofn_writer.specs.Examples.{names, exactly_twenty, exactly_twenty_text, all_but, all_but_text, wide};
ghost use Rattle.ofn_writer.specs.Examples.{nothing, apart, split, lower, equal, left, right, single, inside, joined};
ghost use Rattle.ofn_writer.specs.Examples.{one, two, small, small_text};

/// Each clause is an example of its own.
pub fn examples_hold()
    ensures cardinality { concept_text names exactly_twenty ≡ exactly_twenty_text }
    ensures bounds { concept_text names all_but ≡ all_but_text }
    ensures inclusion { axiom_text names wide ≡ codes "SubClassOf(<B> ObjectMinCardinality(0 <S> <A>))" }
    ensures equivalent { axiom_text names nothing ≡ codes "EquivalentClasses(owl:Nothing <B>)" }
    ensures disjoint { axiom_text names apart ≡ codes "DisjointClasses(<A> <B> <B>)" }
    ensures union { axiom_text names split ≡ codes "DisjointUnion(<A> <B> ObjectSomeValuesFrom(<R> <A>))" }
    ensures role_inclusion { axiom_text names lower ≡ codes "SubObjectPropertyOf(<S> <R>)" }
    ensures roles { axiom_text names equal ≡ codes "EquivalentObjectProperties(<R> <S> <R>)" }
    ensures domain { axiom_text names left ≡ codes "ObjectPropertyDomain(<R> <B>)" }
    ensures range { axiom_text names right ≡ codes "ObjectPropertyRange(<S> owl:Thing)" }
    ensures role { axiom_text names single ≡ codes "FunctionalObjectProperty(<S>)" }
    ensures member { axiom_text names inside ≡ codes "ClassAssertion(ObjectSomeValuesFrom(<R> <B>) <b>)" }
    ensures pair { axiom_text names joined ≡ codes "ObjectPropertyAssertion(<S> <a> <b>)" }
    ensures same { axiom_text names one ≡ codes "SameIndividual(<b> <a> <a>)" }
    ensures different { axiom_text names two ≡ codes "DifferentIndividuals(<a> <b>)" }
    ensures document { ontology_text small ≡ small_text }
{}
