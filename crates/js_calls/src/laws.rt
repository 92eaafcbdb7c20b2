//! Laws over the definitions: these calls do nothing, and each says a law of entries.

ghost use Rattle.js_calls.specs.Laws as law;

/// An entry leaves prototypes and parents with lower numbers, where they had them before.
pub fn entries_keep_order()
    ensures { law.EntriesKeepOrder }
{}

/// An entry puts no object into a property that is none of its arguments and none of the new ones.
pub fn entries_hold_nothing()
    ensures { law.EntriesHoldNothing }
{}
