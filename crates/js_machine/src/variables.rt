//! Variables (ES3 10.2.1, 12.2).

ghost use Rattle.std.specs.Prelude.{◌≡◌, ◌∷◌, ◌≤◌, ◌<◌, ◌+◌, ◌*◌, length, true, IfOk};
ghost use Rattle.js_tree.specs.Parts as parts;
ghost use Rattle.js_tree.specs.Tree as tree;
ghost use Rattle.js_code.specs.Cursors.{var_items_from};
ghost use Rattle.js_machine.specs.Globals.{is_initialised, with_variable, with_variables};
ghost use Rattle.js_machine.specs.NotBuilt.{StopsRightly};
ghost use Rattle.js_machine.specs.Rest.{Falls, Same, in_header, in_stmt, in_value};
ghost use Rattle.js_machine.specs.Rest.{in_variables, rest};
ghost use Rattle.js_machine.specs.Skipped.{Skips};

use crate::frame::{Control, Frame};
use crate::machine::Machine;
use dl_text::{Listed, Names, Units};
use js_code::{StmtCode, VarCodes};
use js_values::Value;
use object_heap::{Attrs, BuiltIn, Heap};
use std::alloc::AllocError;

/// The attributes of a variable of a script (ES3 10.2.1).
const DECLARED: Attrs = Attrs {
    read_only: false,
    hidden: false,
    fixed: true,
};

/// Makes a variable of a script, unless the global object has that name itself.
#[tactic(auto, using(crate::proofs::VariableLaws::declare_laws))]
fn declare_one(heap: &mut Heap, name: &Units) -> Result<(), AllocError>
    ensures { IfOk result (λ _. heap.new ≡ with_variable name.now heap.old) }
{
    let global = heap.built_in(BuiltIn::Global);
    match heap.own(global, name) {
        Some(_) => Ok(()),
        None => heap.define(global, name, Value::Undefined, DECLARED),
    }
}

/// Makes the variables of a script.
#[tactic(auto, using(crate::proofs::VariableLaws::one_more))]
pub(crate) fn declare(heap: &mut Heap, names: &Names) -> Result<(), AllocError>
    ensures { IfOk result (λ _. heap.new ≡ with_variables names.now heap.old) }
{
    for name in names.items() {
        declare_one(heap, name)?;
    }
    Ok(())
}

/// The number of the first item from one on that has an initialiser, or of where the items end.
#[tactic(auto, using(crate::proofs::VariableLaws::skip_laws))]
fn first_initialised(items: &VarCodes, from: u32) -> Result<u32, AllocError>
    ensures skipped { IfOk result (λ at. Skips items.now from at) }
    ensures found { IfOk result (λ at.
        is_initialised (var_items_from items.now at) ≡ true) }
{
    let mut at = from;
    'items: loop {
        match items.get(at as usize) {
            None => return Ok(at),
            Some(item) if item.value.is_some() => return Ok(at),
            Some(_) if at == u32::MAX => return Err(AllocError),
            Some(_) => at += 1,
        }
    }
}

impl Machine {
    /// A `var` goes on from an item on.
    #[inline]
    #[tactic(auto, using(crate::proofs::VariableLaws::variables_laws))]
    pub(crate) fn next_variable(&mut self, items: VarCodes, i: u32) -> Result<Control, AllocError>
        ensures same { IfOk result (λ next. Same (in_variables items i) self.old next self.new) }
        ensures falls { IfOk result (λ next. Falls self.old next self.new) }
        ensures rightly { IfOk result (λ next. StopsRightly next self.new) }
    {
        let at = first_initialised(&items, i)?;
        let Some(item) = items.get(at as usize) else {
            return Ok(Control::Done);
        };
        let Some(value) = &item.value else {
            return Ok(Control::Done);
        };
        let value = value.share()?;
        self.frames.push(Frame::Var(at, items))?;
        Ok(Control::Expr(value))
    }

    /// The same in the header of a loop, whose turns come then.
    #[inline]
    #[tactic(auto, using(crate::proofs::VariableLaws::header_laws))]
    pub(crate) fn next_in_header(
        &mut self,
        items: VarCodes,
        i: u32,
        s: StmtCode,
    ) -> Result<Control, AllocError>
        ensures same { IfOk result (λ next. Same (in_header items i s) self.old next self.new) }
        ensures falls { IfOk result (λ next. Falls self.old next self.new) }
        ensures rightly { IfOk result (λ next. StopsRightly next self.new) }
    {
        let at = first_initialised(&items, i)?;
        let Some(item) = items.get(at as usize) else {
            return self.turn(s);
        };
        let Some(value) = &item.value else {
            return Ok(Control::Done);
        };
        let value = value.share()?;
        self.frames.push(Frame::ForVar(at, items, s))?;
        Ok(Control::Expr(value))
    }

    #[inline]
    #[tactic(auto, using(crate::proofs::VariableLaws::var_laws))]
    pub(crate) fn give_var(&mut self, i: u32, items: VarCodes) -> Result<Control, AllocError>
        ensures same { IfOk result (λ next.
            Same (in_value (Frame.Var i items)) self.old next self.new) }
        ensures falls { IfOk result (λ next. Falls self.old next self.new) }
        ensures rightly { IfOk result (λ next. StopsRightly next self.new) }
    {
        let v = self.values.pop();
        let Some(item) = items.get(i as usize) else {
            return Ok(Control::Done);
        };
        if i == u32::MAX {
            return Err(AllocError);
        }
        if self.write_name(&item.name, v)? {
            self.next_variable(items, i + 1)
        } else {
            self.throw_error(BuiltIn::RangeErrorPrototype)
        }
    }

    #[inline]
    #[tactic(auto, using(crate::proofs::VariableLaws::for_var_laws))]
    pub(crate) fn give_for_var(
        &mut self,
        i: u32,
        items: VarCodes,
        s: StmtCode,
    ) -> Result<Control, AllocError>
        ensures same { IfOk result (λ next.
            Same (in_value (Frame.ForVar i items s)) self.old next self.new) }
        ensures falls { IfOk result (λ next. Falls self.old next self.new) }
        ensures rightly { IfOk result (λ next. StopsRightly next self.new) }
    {
        let v = self.values.pop();
        let Some(item) = items.get(i as usize) else {
            return self.turn(s);
        };
        if i == u32::MAX {
            return Err(AllocError);
        }
        if self.write_name(&item.name, v)? {
            self.next_in_header(items, i + 1, s)
        } else {
            self.throw_error(BuiltIn::RangeErrorPrototype)
        }
    }
}
