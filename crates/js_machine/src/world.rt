//! What a run asks of the world around it.

ghost use Rattle.std.specs.Prelude.{◌≡◌, ◌∷◌, ◌++◌, ℕ, List, false, is_some};
ghost use Rattle.std.specs.Prelude.{[], IfOk, MatchOption, None, Some};
ghost use Rattle.js_tree.specs.Plain.{func};
ghost use Rattle.js_tree.specs.Tree.{Func};
ghost use Rattle.js_machine.specs.Given.{Asked, Called, Entered, Needed, GrowsTo};
ghost use Rattle.js_machine.specs.Operated.{is_object};
ghost use Rattle.js_machine.specs.Run.{entry_in};

use dl_text::Units;
use js_tree::Func;
use js_values::Value;
use std::alloc::AllocError;

/// Who answers the host calls of a page, and is told of the functions that are entered. An
/// implementation keeps the list of what was asked.
pub trait Host {
    /// What was asked so far, in order.
    ghost given: { Self → List Asked };

    /// A host call, which is answered with a value that is no object.
    fn call(&mut self, name: &Units, arguments: &[Value]) -> Result<Value, AllocError>
        ensures given { IfOk result (λ v. given self.new
            ≡ given self.old ++ Called name.now arguments.now v ∷ []) }
        ensures primitive { IfOk result (λ v. is_object v ≡ false) };

    /// A numbered function is entered, which is this beat. False means that the run cannot go on.
    fn entered(&mut self, number: u32, beat: u64) -> Result<bool, AllocError>
        ensures given { IfOk result (λ goes_on. given self.new
            ≡ given self.old ++ Entered number beat goes_on ∷ []) };
}

/// A world that has functions whose bodies are sent late.
pub trait Late: Host {
    /// The functions that are there, by their numbers. The list only grows.
    ghost bodies: { Self → List (ℕ × Func) };

    /// The function of this number is needed. False means that it is not there, so that the run
    /// cannot go on.
    fn late(&mut self, number: u32) -> Result<bool, AllocError>
        ensures given { IfOk result (λ is_there. Self.given self.new
            ≡ Self.given self.old ++ Needed number is_there ∷ []) }
        ensures there { IfOk result (λ is_there.
            is_there ≡ is_some (entry_in (bodies self.new) number)) }
        ensures grows { GrowsTo (bodies self.old) (bodies self.new) };

    /// The function of this number, if it is there.
    fn body(&self, number: u32) -> Option<&Func>
        ensures { MatchOption result (entry_in (bodies self.now) number ≡ None)
            (λ f. entry_in (bodies self.now) number ≡ Some (func f.now)) };
}
