//! What a statement stands in, within its function.

ghost use Rattle.std.specs.Prelude.{◌≡◌, [], ◌∷◌, ◌++◌, ◌||◌};
ghost use Rattle.js_parser.specs.Contexts as contexts;
ghost use Rattle.js_parser.specs.Machine as rule;
ghost use Rattle.js_parser.specs.Names as spec;
ghost use Rattle.js_parser.specs.Reads.{Makes};
ghost use Rattle.js_parser.specs.View as view;

use crate::names::is_among;
use crate::stop::Stop;
use dl_text::{Listed, Names, TryCopy, Units};
use std::alloc::Global;

/// What a statement stands in: functions, loops, `switch` statements and labels (ES3 section 12).
#[derive(Drop)]
pub struct Context {
    pub in_function: bool,
    pub in_loop: bool,
    pub in_switch: bool,
    /// The labels of the statements around it, the innermost first.
    pub labels: Names,
    /// Of these, the labels of loops.
    pub loops: Names,
    /// The labels that stand directly before it.
    pub ahead: Names,
}

impl Context {
    /// Of the statements of a script or a function.
    fn outermost(alloc: Global, in_function: bool) -> Context
        ensures { view.context result ≡ contexts.outermost in_function }
    {
        Context {
            in_function,
            in_loop: false,
            in_switch: false,
            labels: Names::new(alloc),
            loops: Names::new(alloc),
            ahead: Names::new(alloc),
        }
    }

    /// Of a script's statements.
    pub fn script(alloc: Global) -> Context
        ensures { view.context result ≡ contexts.script }
    {
        Context::outermost(alloc, false)
    }

    /// Of a function's statements.
    pub fn function(alloc: Global) -> Context
        ensures { view.context result ≡ contexts.function }
    {
        Context::outermost(alloc, true)
    }

    /// Of a part of a statement.
    pub fn part(&self, alloc: Global) -> Result<Context, Stop>
        ensures { Makes view.context (contexts.part (view.context self.now)) result }
    {
        Ok(Context {
            in_function: self.in_function,
            in_loop: self.in_loop,
            in_switch: self.in_switch,
            labels: self.labels.copy(alloc)?,
            loops: self.loops.copy(alloc)?,
            ahead: Names::new(alloc),
        })
    }

    /// Of a loop's body (ES3 12.6).
    pub fn loop_body(&self, alloc: Global) -> Result<Context, Stop>
        ensures { Makes view.context (contexts.loop (view.context self.now)) result }
    {
        Ok(Context {
            in_function: self.in_function,
            in_loop: true,
            in_switch: self.in_switch,
            labels: self.labels.copy(alloc)?,
            loops: joined(alloc, &self.ahead, &self.loops)?,
            ahead: Names::new(alloc),
        })
    }

    /// Of a clause of a `switch` (ES3 12.11).
    pub fn clause(&self, alloc: Global) -> Result<Context, Stop>
        ensures { Makes view.context (contexts.clause (view.context self.now)) result }
    {
        Ok(Context {
            in_function: self.in_function,
            in_loop: self.in_loop,
            in_switch: true,
            labels: self.labels.copy(alloc)?,
            loops: self.loops.copy(alloc)?,
            ahead: Names::new(alloc),
        })
    }

    /// Of what stands behind a label (ES3 12.12).
    pub fn labelled(&self, alloc: Global, name: &Units) -> Result<Context, Stop>
        ensures { Makes view.context (contexts.labelled name.now (view.context self.now)) result }
    {
        let one = only(alloc, name)?;
        Ok(Context {
            in_function: self.in_function,
            in_loop: self.in_loop,
            in_switch: self.in_switch,
            labels: joined(alloc, &one, &self.labels)?,
            loops: self.loops.copy(alloc)?,
            ahead: joined(alloc, &one, &self.ahead)?,
        })
    }

    /// Whether a label has this name (ES3 12.12).
    pub fn has_label(&self, name: &Units) -> bool
        ensures { result ≡ spec.is_among name.now self.now.labels }
    {
        is_among(name, self.labels.items())
    }

    /// Whether a `continue` may stand there (ES3 12.7).
    pub fn allows_continue(&self) -> bool
        ensures { result ≡ (self.now.in_loop || rule.are_some self.now.loops) }
    {
        self.in_loop || are_some(&self.loops)
    }

    /// Whether a `break` without a label may stand there (ES3 12.8).
    pub fn may_break(&self) -> bool
        ensures { result ≡ contexts.may_break (view.context self.now) }
    {
        self.in_loop || self.in_switch
    }

    /// Whether a `break` may stand there (ES3 12.8).
    pub fn allows_break(&self) -> bool
        ensures { result ≡
            (contexts.may_break (view.context self.now) || rule.are_some self.now.labels) }
    {
        self.may_break() || are_some(&self.labels)
    }
}

/// Whether the names are some.
fn are_some(names: &Names) -> bool
    ensures { result ≡ rule.are_some names.now }
{
    matches!(names.items(), [_, ..])
}

/// The list of this name alone.
fn only(alloc: Global, name: &Units) -> Result<Names, Stop>
    ensures { Makes (λ names. names) (name.now ∷ []) result }
{
    let mut names = Names::new(alloc);
    names.push(name.copy(alloc)?)?;
    Ok(names)
}

/// The names of both lists, in order.
fn joined(alloc: Global, first: &Names, last: &Names) -> Result<Names, Stop>
    ensures { Makes (λ names. names) (first.now ++ last.now) result }
{
    let mut names = first.copy(alloc)?;
    'rest: for name in last.items() {
        names.push(name.copy(alloc)?)?;
    }
    Ok(names)
}
