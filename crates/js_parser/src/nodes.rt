//! Nodes of operands from their parts.

ghost use Rattle.std.specs.Prelude.{◌≡◌, [], ◌∷◌, ◌++◌, map, option_map, Some, None, OnOk, IfOk, IfErr};
ghost use Rattle.js_parser.specs.ExpressionLists as lists;
ghost use Rattle.js_parser.specs.Pieces as pieces;
ghost use Rattle.js_parser.specs.Reads.{Makes};
ghost use Rattle.js_parser.specs.declared.stop.Stop.TheVariants.{OutOfMemory};
ghost use Rattle.js_tree.specs.Plain.{expr, func};
ghost use Rattle.js_tree.specs.Tree as tree;

use crate::names;
use crate::stop::Stop;
use dl_text::Units;
use js_lexer::{TokenKind, Word};
use js_tree::{Boxed, Elements, Expr, Exprs, Func, Pair, Pairs};
use std::alloc::Global;

/// The expression that a token is by itself, if it is one (ES3 7.8, 11.1.1).
pub fn leaf(alloc: Global, kind: &TokenKind) -> Result<Option<Boxed<Expr>>, Stop>
    ensures ok { IfOk result (λ leaf. option_map expr leaf ≡ pieces.leaf_of kind.now) }
    ensures err { IfErr result (λ error. error ≡ OutOfMemory) }
{
    match kind {
        TokenKind::Word(Word::This) => Ok(Some(Boxed::new(alloc, Expr::This)?)),
        TokenKind::Word(Word::Null) => Ok(Some(Boxed::new(alloc, Expr::Null)?)),
        TokenKind::Word(Word::True) => Ok(Some(Boxed::new(alloc, Expr::Bool(true))?)),
        TokenKind::Word(Word::False) => Ok(Some(Boxed::new(alloc, Expr::Bool(false))?)),
        TokenKind::Number(number) => Ok(Some(Boxed::new(alloc, Expr::Num(*number))?)),
        TokenKind::Str(text) => {
            let text = names::share(alloc, text)?;
            Ok(Some(Boxed::new(alloc, Expr::Str(text))?))
        }
        _ => Ok(None),
    }
}

/// A name as an expression (ES3 11.1.2).
pub fn name(alloc: Global, name: &Units) -> Result<Boxed<Expr>, Stop>
    ensures { Makes expr (tree.Ident name.now) result }
{
    let name = names::share(alloc, name)?;
    Ok(Boxed::new(alloc, Expr::Name(name))?)
}

/// A late function, of the entry of this number.
pub fn late(alloc: Global, entry: u32) -> Result<Boxed<Expr>, Stop>
    ensures { Makes expr (tree.Late entry) result }
{
    Ok(Boxed::new(alloc, Expr::Late(entry))?)
}

/// An array literal (ES3 11.1.4).
pub fn array(alloc: Global, elements: Elements) -> Result<Boxed<Expr>, Stop>
    ensures { Makes expr (tree.Array (lists.elements elements)) result }
{
    Ok(Boxed::new(alloc, Expr::Array(elements))?)
}

/// An object literal (ES3 11.1.5).
pub fn object(alloc: Global, pairs: Pairs) -> Result<Boxed<Expr>, Stop>
    ensures { Makes expr (tree.Object (lists.pairs pairs)) result }
{
    Ok(Boxed::new(alloc, Expr::Object(pairs))?)
}

/// A function expression (ES3 section 13).
pub fn function(alloc: Global, function: Boxed<Func>) -> Result<Boxed<Expr>, Stop>
    ensures { Makes expr (tree.Function (func function)) result }
{
    Ok(Boxed::new(alloc, Expr::Func(function))?)
}

/// A property of a given name (ES3 11.2.1).
pub fn dot(alloc: Global, object: Boxed<Expr>, name: Units) -> Result<Boxed<Expr>, Stop>
    ensures { Makes expr (tree.Dot (expr object) name) result }
{
    Ok(Boxed::new(alloc, Expr::Dot(object, name))?)
}

/// A property of a computed name (ES3 11.2.1).
pub fn index(alloc: Global, object: Boxed<Expr>, key: Boxed<Expr>) -> Result<Boxed<Expr>, Stop>
    ensures { Makes expr (tree.Index (expr object) (expr key)) result }
{
    Ok(Boxed::new(alloc, Expr::Index(object, key))?)
}

/// A call (ES3 11.2.3).
pub fn call(alloc: Global, callee: Boxed<Expr>, arguments: Exprs) -> Result<Boxed<Expr>, Stop>
    ensures { Makes expr (tree.Call (expr callee) (lists.exprs arguments)) result }
{
    Ok(Boxed::new(alloc, Expr::Call(callee, arguments))?)
}

/// The operator `new` (ES3 11.2.2).
pub fn created(alloc: Global, callee: Boxed<Expr>, arguments: Exprs) -> Result<Boxed<Expr>, Stop>
    ensures { Makes expr (tree.New (expr callee) (lists.exprs arguments)) result }
{
    Ok(Boxed::new(alloc, Expr::New(callee, arguments))?)
}

/// Adds an argument.
pub fn push_argument(arguments: &mut Exprs, argument: Boxed<Expr>) -> Result<(), Stop>
    ensures ok { OnOk result
        (map expr arguments.new ≡ map expr arguments.old ++ expr argument ∷ []) }
    ensures err { IfErr result (λ error. error ≡ OutOfMemory) }
{
    Ok(arguments.push(argument.into_inner())?)
}

/// Adds a hole to the elements of an array literal.
pub fn push_hole(elements: &mut Elements) -> Result<(), Stop>
    ensures ok { OnOk result
        (map lists.element elements.new ≡ map lists.element elements.old ++ None ∷ []) }
    ensures err { IfErr result (λ error. error ≡ OutOfMemory) }
{
    Ok(elements.push(None)?)
}

/// Adds an element to those of an array literal.
pub fn push_element(elements: &mut Elements, element: Boxed<Expr>) -> Result<(), Stop>
    ensures ok { OnOk result (map lists.element elements.new
        ≡ map lists.element elements.old ++ Some (expr element) ∷ []) }
    ensures err { IfErr result (λ error. error ≡ OutOfMemory) }
{
    Ok(elements.push(Some(element.into_inner()))?)
}

/// Adds a key and its value to those of an object literal.
pub fn push_pair(pairs: &mut Pairs, key: Units, value: Boxed<Expr>) -> Result<(), Stop>
    ensures ok { OnOk result (map lists.pair pairs.new
        ≡ map lists.pair pairs.old ++ lists.keyed key (expr value) ∷ []) }
    ensures err { IfErr result (λ error. error ≡ OutOfMemory) }
{
    let value = value.into_inner();
    Ok(pairs.push(Pair { key, value })?)
}
