// What is malformed is found at its first line, and what is accepted is true.
ghost use Rattle.decision_jobs.specs.Malformed.{MalformedIsFirst};
ghost use Rattle.decision_jobs.specs.VerdictLaws.{VerdictsAreTrue};

/// The line that is rejected as malformed is the first: some certificate begins with the lines before it, and none with
/// these and it. Where a needed line is missing, its number is the number of lines plus 1.
pub fn malformed_line_is_the_first()
    ensures { MalformedIsFirst }
{}

/// A query whose refutation is accepted follows from the axioms in all finite interpretations; one whose counter-model
/// is accepted does not.
pub fn verdicts_are_true()
    ensures { VerdictsAreTrue }
{}
