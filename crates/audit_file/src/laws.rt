// Laws of what is read and written.
ghost use Rattle.audit_file.specs.Malformed.{AuditsTellMalformed};
ghost use Rattle.audit_file.specs.Written.{AuditsAreReadBack, WhatIsWrittenIsRead};

/// The lines of an audit's text are the text of that audit, for names that are listed once and have no blank and no end
/// of a line in them, as IRIs have none, and for an audit over the axioms of the document and over listed names, whose
/// refutations and models can be written.
pub fn audits_are_read_back()
    ensures { AuditsAreReadBack }
{}

/// What [`Audit::text`](crate::Audit::text) wrote of an audit is read as that audit, for names as above and up to
/// 4,294,967,295 lines: who wrote it knows of it what the law above asks for, but for the limits of its sets, and for
/// its refutations.
pub fn what_is_written_is_read()
    ensures { WhatIsWrittenIsRead }
{}

/// The malformed line that is told of lines that are no audit is the first: some audit begins with the lines before it,
/// and none with these and it. For that the sets are counted that can still follow in the order of sets.
pub fn malformed_line_is_the_first()
    ensures { AuditsTellMalformed }
{}
