//! Laws over the definitions: this call does nothing, and says a law of numbers.

ghost use Rattle.std.specs.Prelude.{◌≡◌, List, length};
ghost use Rattle.js_tree.specs.Numbering.{IsNumbered, functions};
ghost use Rattle.js_tree.specs.Renumbering.{Alike, renumbered};
ghost use Rattle.js_tree.specs.Tree.{Script};

/// Renumbered scripts have the numbers 1, 2, .. and as many functions as before; they are alike
/// but for the numbers, and no others that are alike have these numbers.
pub fn scripts_are_renumbered()
    ensures numbered { (scripts : List Script) → IsNumbered (renumbered 1 scripts) }
    ensures as_many { (scripts : List Script)
        → length (functions (renumbered 1 scripts)) ≡ length (functions scripts) }
    ensures alike { (scripts : List Script) → Alike scripts (renumbered 1 scripts) }
    ensures only { (scripts others : List Script)
        → Alike scripts others → IsNumbered others → others ≡ renumbered 1 scripts }
{}
