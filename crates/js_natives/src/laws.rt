//! Laws over the definitions: these calls do nothing, and each says a law of natives.

ghost use Rattle.js_natives.specs.Laws as law;

/// A native passes no object on that it was not given by its caller, by a read or as a new one. So
/// none gives Function.prototype, puts it into a property or converts it.
pub fn natives_avoid()
    ensures { law.NativesAvoid }
{}

/// A native takes a step for each index of its loops over indices, and no others.
pub fn steps_are_of_indices()
    ensures { law.StepsAreOfIndices }
{}

/// A text of more than 2^26 units stops the run where it would be made, and any other is made.
pub fn long_texts_stop()
    ensures long { law.LongTextsStop }
    ensures others { law.OtherTextsAreMade }
{}
