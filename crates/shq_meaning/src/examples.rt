// Small interpretations in which the meaning of axioms and class expressions was worked out by hand.
ghost use Rattle.std.specs.Prelude.{IsTrue, IsFalse, [], ◌∷◌};
ghost use Rattle.shq_terms.specs.Concept.{top, name, complement, some_of, all_of, at_most, exactly};
ghost use Rattle.shq_terms.specs.declared.axioms.Axiom.TheVariants as axioms;
ghost use Rattle.shq_meaning.specs.Truth.{holds, meets, refutes_at};
ghost use Rattle.shq_meaning.specs.Examples.{complete, path, two_successors, split, split_twice, others, is_nothing};
ghost use Rattle.shq_meaning.specs.Examples.{is_in};

/// Each clause is an example of its own: an axiom that an interpretation meets or breaks, or an element that is in a
/// class expression or outside.
pub fn examples_hold()
    ensures two_are_counted { IsTrue (meets (complete 2) two_successors) }
    ensures one_is_not_two { IsFalse (meets (complete 1) two_successors) }
    ensures an_element_is_a_successor_of_itself { IsFalse (meets (complete 2) (axioms.Functional 0)) }
    ensures the_counter_element { IsTrue (refutes_at (complete 2) (is_nothing (name 0)) 0) }

    ensures not_transitive { IsFalse (meets path (axioms.Transitive 0)) }
    ensures transitive { IsTrue (meets path (axioms.Transitive 1)) }
    ensures included { IsTrue (meets path (axioms.SubRole 0 1)) }
    ensures not_included { IsFalse (meets path (axioms.SubRole 1 0)) }
    ensures not_equal { IsFalse (meets path (axioms.EquivalentRoles (0 ∷ 1 ∷ []))) }
    ensures functional { IsTrue (meets path (axioms.Functional 0)) }

    ensures disjoint_union { IsTrue (meets path split) }
    ensures disjoint_by_place { IsFalse (meets path split_twice) }
    ensures equivalent { IsTrue (meets path others) }
    ensures domain { IsTrue (meets path (axioms.Domain 0 (complement (name 2)))) }
    ensures range { IsTrue (meets path (axioms.Range 0 (name 3))) }
    ensures no_range { IsFalse (meets path (axioms.Range 0 (name 2))) }

    ensures no_successor_has_all { IsTrue (holds path (all_of 0 (name 0)) 2) }
    ensures no_successor_has_some { IsFalse (holds path (some_of 0 top) 2) }
    ensures exactly_one_of_two { IsTrue (holds path (exactly 1 1 (name 2)) 0) }
    ensures at_most_one_of_two { IsFalse (holds path (at_most 1 1 (name 3)) 0) }

    ensures member { IsTrue (meets path (axioms.Member (name 2) 2)) }
    ensures no_member { IsFalse (meets path (axioms.Member (name 2) 1)) }
    ensures pair { IsTrue (meets path (axioms.Pair 1 0 2)) }
    ensures no_pair { IsFalse (meets path (axioms.Pair 0 0 2)) }
    ensures same_elements { IsTrue (meets path (axioms.SameAll (0 ∷ 3 ∷ 4 ∷ []))) }
    ensures other_elements { IsFalse (meets path (axioms.SameAll (0 ∷ 3 ∷ 1 ∷ []))) }
    ensures different { IsTrue (meets path (axioms.Different (2 ∷ 0 ∷ 1 ∷ []))) }
    ensures the_last_is_the_first { IsFalse (meets path (axioms.Different (0 ∷ 1 ∷ 3 ∷ []))) }
    ensures the_last_two_are_one { IsFalse (meets path (axioms.Different (1 ∷ 0 ∷ 3 ∷ []))) }
    ensures none_differs_from_itself { IsFalse (meets path (axioms.Different (1 ∷ 1 ∷ []))) }
    ensures the_individual_is_outside { IsTrue (refutes_at path (is_in (name 2) 1) 1) }
    ensures another_element_does_not_count { IsFalse (refutes_at path (is_in (name 2) 2) 1) }

    ensures an_empty_domain_meets_all { IsTrue (meets (complete 0) (axioms.SubClassOf top (complement top))) }
    ensures a_domain_has_an_element { IsTrue (refutes_at (complete 1) (is_nothing top) 0) }
{}
