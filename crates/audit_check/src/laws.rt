// What a sound audit is good for.
ghost use Rattle.audit_check.specs.Laws.{SoundAuditsListAll, VerdictsAreUnique};

/// Where an audit is sound, its lists are exactly all justifications of the query, the smallest sets of axioms from
/// which it follows, and all its repairs, the smallest ones without which it does not, in all finite interpretations.
pub fn sound_audits_list_all()
    ensures { SoundAuditsListAll }
{}

/// An audit has one verdict: whoever judges it, and a sound one is accepted.
pub fn verdicts_are_unique()
    ensures { VerdictsAreUnique }
{}
