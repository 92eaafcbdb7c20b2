//! Laws over the definitions: these calls do nothing, and each says a law of scopes.

ghost use Rattle.scope_arena.specs.Laws as law;

/// A scope's parent has a lower number: it does at the start, and every call keeps it.
pub fn parents_come_before()
    ensures { law.ParentsStayBefore }
{}

/// The chain of a scope is the scope, and then the chain of its parent.
pub fn chains_go_outwards()
    ensures { law.ChainsGoOutwards }
{}

/// Neither a write nor fixing a scope takes one away or adds one.
pub fn scopes_never_go()
    ensures { law.ScopesNeverGo }
{}

/// A write to a fixed scope has no effect.
pub fn fixed_scopes_stay()
    ensures { law.FixedScopesStay }
{}
