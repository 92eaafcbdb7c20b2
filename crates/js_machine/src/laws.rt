//! Laws over the definitions: these calls do nothing, and each says a law of all runs.

ghost use Rattle.js_machine.specs.Halts.{CallsAreEntered};
ghost use Rattle.js_machine.specs.Laws as law;
ghost use Rattle.js_machine.specs.Reachable as reachable;

/// Steps never fall along a run, and never pass its budget. A run is out of steps only when all of
/// them are taken.
pub fn steps_rise()
    ensures { law.StepsRise }
{}

/// The same of pages.
pub fn pages_rise()
    ensures { law.PagesRise }
{}

/// A run under fewer steps is a cut of the run under more.
pub fn runs_grow()
    ensures { law.RunsGrow }
{}

/// So the marks of a page, original or written, are a prefix of those under more steps, each mark
/// has the steps at which it was made, and an end other than out of steps stays.
pub fn pages_grow()
    ensures { law.PagesGrow }
{}

/// Under a stack a node runs as it does alone, and what waits goes on from its end: the meaning of
/// a node is that of its parts.
pub fn nodes_have_parts()
    ensures { law.NodesHaveParts }
{}

/// `apply` takes a step for each argument, and then has read the list as `js_calls` does.
pub fn lists_are_applied()
    ensures { law.ListsAreApplied }
{}

/// A text of more than 2^26 units stops the run.
pub fn long_texts_stop()
    ensures { law.LongTextsStop }
{}

/// A task that calls a function enters it with the global object as `this`, as an event of a page
/// does.
pub fn calls_are_entered()
    ensures { CallsAreEntered }
{}

/// In every state that a run reaches, prototypes and parents were made before, each number is that
/// of an object or a scope that is there, and no value is Function.prototype; nor is one that a
/// node gives, returns or throws.
pub fn reached_states_keep()
    ensures pages { reachable.PagesKeep }
    ensures nodes { reachable.NodesKeep }
    ensures scripts { reachable.ScriptsBegin }
{}
