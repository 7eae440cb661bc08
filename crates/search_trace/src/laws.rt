// Laws that join a trace to the search of which it is.
ghost use Rattle.search_trace.specs.Laws.{TracesBegin, TracesGoOn, TracesGoBack, GoingBackKeepsKinds};

/// A search that begins has a trace.
pub fn traces_begin()
    ensures { TracesBegin }
{}

/// The lines of a search's steps keep its trace.
pub fn traces_go_on()
    ensures { TracesGoOn }
{}

/// Going back from a child that is closed leads to the next alternative of a branching on which that rests, or leaves
/// lines that close everything.
pub fn traces_go_back()
    ensures { TracesGoBack }
{}

/// Lines of a kind are of this kind after going back.
pub fn going_back_keeps_kinds()
    ensures { GoingBackKeepsKinds }
{}
