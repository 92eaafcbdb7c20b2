//! Reading the statements and declarations of a whole script, and where reading halts.

ghost use Rattle.std.specs.Prelude.{◌≡◌, ◌≤◌, ◌<◌, Bool, List, true, false, length, map, ◌∷◌, ◌++◌, [], IfOk, IfErr};
ghost use Rattle.js_parser.specs.declared.scan.Halt.TheVariants.{OutOfMemory};
ghost use Rattle.js_parser.specs.Reads.{at};
ghost use Rattle.js_parser.specs.Scanned as scanned;
ghost use Rattle.js_parser.specs.Scanned.{Continues, Finishes, Progress, Scanned};
ghost use Rattle.js_parser.specs.StatementPieces.{goes_on_elements};
ghost use Rattle.js_parser.specs.Symbols.{Symbols, are_regular, symbols};
ghost use Rattle.js_parser.specs.declared.form.Form.{Form};
ghost use Rattle.js_parser.specs.declared.form.Limits.{Limits};
ghost use Rattle.js_tree.specs.Plain.{stmt};
ghost use Rattle.js_tree.specs.Tree as tree;

use crate::descent::element;
use crate::form::{Form, Limits};
use crate::stop::Stop;
use crate::tokens::Tokens;
use crate::tree_lists;
use js_lexer::Token;
use js_tree::{Boxed, Stmt, Stmts};
use std::alloc::Global;

/// Why the tokens are no script within the limits of depth and nesting. Places are numbers of
/// tokens before them.
#[derive(Clone, Copy, Debug, PartialEq, Eq)]
pub enum Halt {
    /// This token may not stand where it does.
    Broken(usize),
    /// More tokens are wanted, in the statement that begins here.
    UsedUp(usize),
    /// There is no room in the statement that begins here.
    Deep(usize),
    OutOfMemory,
}

/// Where reading halts that stops in the statement that begins behind so many of all tokens.
fn halt_in(stop: Stop, begun: usize, total: usize, left: usize) -> Halt
    requires { left ≤ total }
    ensures { result ≡ scanned.halt_of stop begun total left }
{
    match stop {
        Stop::Broken => {
            if left > 0 {
                Halt::Broken(total - left)
            } else {
                Halt::UsedUp(begun)
            }
        }
        Stop::Deep => Halt::Deep(begun),
        Stop::OutOfMemory => Halt::OutOfMemory,
    }
}

/// The statements with one more.
fn with_item(before: Stmts, item: Boxed<Stmt>) -> Result<Stmts, Halt>
    ensures ok { IfOk result (λ all. map stmt all ≡ map stmt before ++ (stmt item ∷ [])) }
    ensures err { IfErr result (λ halt. halt ≡ OutOfMemory) }
{
    match tree_lists::with_statement(before, item) {
        Ok(all) => Ok(all),
        Err(_) => Err(Halt::OutOfMemory),
    }
}

/// One more statement or declaration of a script of so many tokens, behind these.
fn and_element(
    alloc: Global,
    form: Form,
    limits: &Limits,
    tokens: &mut Tokens<'_>,
    before: Stmts,
    total: usize,
) -> Result<Stmts, Halt>
    requires some { 0 < length tokens.old }
    requires within { length tokens.old ≤ total }
    ensures continues { (ts : Symbols) → length ts ≡ total → are_regular ts ≡ true
        → at goes_on_elements tokens.old ≡ true
        → Progress form limits.now ts tokens.old (map stmt before)
        → Continues form limits.now ts tokens.old tokens.new result }
    ensures shorter { length tokens.new ≤ length tokens.old }
{
    let begun = total - tokens.len();
    match element(alloc, tokens, form, limits) {
        Ok(item) => with_item(before, item),
        Err(stop) => Err(halt_in(stop, begun, total, tokens.len())),
    }
}

/// Behind the statements and declarations of a script, its end.
fn finish(tokens: &mut Tokens<'_>, total: usize) -> Result<(), Halt>
    requires within { length tokens.old ≤ total }
    ensures { (form : Form) (limits : Limits) (ts : Symbols) (ss : List tree.Stmt)
        → length ts ≡ total → at goes_on_elements tokens.old ≡ false
        → Progress form limits ts tokens.old ss → Finishes form limits ts ss result }
{
    if tokens.is_empty() {
        return Err(Halt::UsedUp(total));
    }
    if !tokens.at_end() {
        return Err(Halt::Broken(total - tokens.len()));
    }
    tokens.take();
    if tokens.len() > 0 {
        return Err(Halt::Broken(total - tokens.len()));
    }
    Ok(())
}

/// The statements and declarations of a script (ES3 section 14).
pub fn scan(alloc: Global, form: Form, limits: &Limits, front: &[Token]) -> Result<Stmts, Halt>
    ensures { Scanned form limits.now (symbols front.now) result }
{
    let total = front.len();
    let mut tokens = Tokens::new(front);
    let mut body = Stmts::new(alloc);
    'elements: while tokens.goes_on_elements() {
        body = and_element(alloc, form, limits, &mut tokens, body, total)?;
    }
    finish(&mut tokens, total)?;
    Ok(body)
}
