//! Laws over the definitions: these calls do nothing, and each says a law of landings.

ghost use Rattle.exceptions_core.specs.Laws as law;

/// A completion lands at the innermost frame that takes it. The frames inside that frame go, those
/// around it stay.
pub fn lands_at_the_innermost()
    ensures { law.LandsAtTheInnermost }
{}

/// Where no frame takes it, no frame is left.
pub fn falls_to_the_bottom()
    ensures { law.FallsToTheBottom }
{}
