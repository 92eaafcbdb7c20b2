//! Laws over the definitions: these calls do nothing, and each says a law of objects.

ghost use Rattle.object_heap.specs.Laws as law;

/// An object's prototype has a lower number: it does at the start, and every call keeps it.
pub fn prototypes_come_before()
    ensures { law.PrototypesStayBefore }
{}

/// The chain of an object is the object, and then the chain of its prototype.
pub fn chains_go_up()
    ensures { law.ChainsGoUp }
{}

/// No property holds Function.prototype, so no read gives it: at the start, and behind every call
/// that is not given that object.
pub fn nothing_holds()
    ensures { law.NothingHolds }
{}
