// What a list of sets and the list of their smallest transversals are, of any claim about sets of numbers.
//
// Who hands over all smallest yes-sets of a claim can show that none is missing: the smallest sets that meet all of
// them are what has to be taken away, and each of these ends the claim. So who looks at the two lists need not trust
// the search for what is in them, nor make it again. This is the duality of a family of sets and its transversals
// (Claude Berge, "Hypergraphs", 1989), with Raymond Reiter's theorem ("A Theory of Diagnosis from First Principles",
// Artificial Intelligence 32, 1987).

ghost use Rattle.audit_check.specs.Audits.{AuditedAreMinimalYes, AuditedAreMinimalRemovals};
ghost use Rattle.audit_check.specs.Listed.{NoneContainsAnother};
ghost use Rattle.audit_check.specs.Transversals.{TransversalsHitAlone};

use pinpointing_specs::Claim;

/// Yes-sets of which none contains another, whose smallest transversals each end the claim, are exactly the smallest
/// yes-sets.
pub fn audited_are_minimal_yes<C: Claim>()
    ensures { AuditedAreMinimalYes C.holds }
{}

/// And these transversals are exactly the smallest sets whose removal leaves no yes-set.
pub fn audited_are_minimal_removals<C: Claim>()
    ensures { AuditedAreMinimalRemovals C.holds }
{}

/// A set is a smallest one that meets each listed set exactly where it meets each, and hits some of them in each of its
/// members alone.
pub fn transversals_hit_alone()
    ensures { TransversalsHitAlone }
{}

/// Where no set of a list contains one at another place, none contains another one.
pub fn none_contains_another()
    ensures { NoneContainsAnother }
{}
