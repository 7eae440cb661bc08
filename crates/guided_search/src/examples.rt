// Questions of which it was worked out by hand whether they have a closed tableau.
ghost use Rattle.guided_search.specs.TableauExamples.{ExamplesHold};

/// Each field is an example of its own: a closed tableau, and a question with a counter-model and without one.
pub fn examples_hold()
    ensures { ExamplesHold }
{}
