// What follows of sessions.
ghost use Rattle.edit_session.specs.Laws.{EntriesStayHonest, AnswersAreFromScratch, EmptyLogsServe, NewSessionsMayGoOn};

/// An entry of a log that was honest is honest still where axioms are added and other names are listed.
pub fn entries_stay_honest()
    ensures { EntriesStayHonest }
{}

/// A query is answered with no exactly where it does not follow from the live axioms alone, as a new run on them says;
/// where it does, with yes and some live axioms from which it follows.
pub fn answers_are_from_scratch()
    ensures { AnswersAreFromScratch }
{}

/// Any session may go on with an empty log, whatever its lines were before.
pub fn empty_logs_serve()
    ensures { EmptyLogsServe }
{}

/// A new session may go on with an empty log, which is honest.
pub fn new_sessions_may_go_on()
    ensures { NewSessionsMayGoOn }
{}
