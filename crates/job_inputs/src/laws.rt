// What is read is not refused, and is read or refused in one way.
ghost use Rattle.job_inputs.specs.Laws.{GapsHaveNoStray, StraysAreUnique, DocumentsAloneAreNotRefused};
ghost use Rattle.job_inputs.specs.Laws.{DocumentAloneRefusalsAreUnique, QuestionsAreUnique, QuestionsAreNotRefused};
ghost use Rattle.job_inputs.specs.Laws.{QuestionRefusalsAreUnique};

/// Where only whitespace and comments stand, no other byte does.
pub fn gaps_have_no_stray()
    ensures none { GapsHaveNoStray }
    ensures one { StraysAreUnique }
{}

/// Bytes that are a document alone are not refused as one, and those that are not are refused for one reason.
pub fn documents_alone_are_not_refused()
    ensures not_refused { DocumentsAloneAreNotRefused }
    ensures one_reason { DocumentAloneRefusalsAreUnique }
{}

/// A question on a document is one query, and is not refused; what is refused is so for one reason.
pub fn questions_are_read_in_one_way()
    ensures one { QuestionsAreUnique }
    ensures not_refused { QuestionsAreNotRefused }
    ensures one_reason { QuestionRefusalsAreUnique }
{}
