//! What can be written to.

ghost use Rattle.std.specs.Prelude.{◌≡◌};
ghost use Rattle.js_parser.specs.Operators as operators;
ghost use Rattle.js_tree.specs.Plain.{expr};

use js_tree::{Boxed, Expr};

/// Whether an assignment, `++` and `--` may write to the expression: a name, a dot or an index
/// (ES3 11.13).
pub fn is_target(tree: &Boxed<Expr>) -> bool
    ensures { result ≡ operators.is_target (expr tree.now) }
{
    matches!(
        tree.get(),
        Expr::Name(_) | Expr::Dot(_, _) | Expr::Index(_, _)
    )
}
