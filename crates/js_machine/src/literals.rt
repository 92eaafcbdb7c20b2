//! Array and object literals (ES3 11.1.4, 11.1.5): the object is made first, and stands under what
//! is begun for it.

ghost use Rattle.std.specs.Prelude.{◌≡◌, ◌∷◌, ◌++◌, ◌≤◌, ◌<◌, ◌+◌, ◌*◌};
ghost use Rattle.std.specs.Prelude.{[], length, false, IfOk, Some};
ghost use Rattle.object_heap.specs.BuiltIns as built_ins;
ghost use Rattle.object_heap.specs.Changes.{new_object};
ghost use Rattle.object_heap.specs.Names.{decimal};
ghost use Rattle.js_tree.specs.Tree as tree;
ghost use Rattle.js_code.specs.Cursors.{elements_from, pairs_from};
ghost use Rattle.js_machine.specs.Literals.{Skips, begins_with_hole};
ghost use Rattle.js_machine.specs.NotBuilt.{StopsRightly};
ghost use Rattle.js_machine.specs.Rest.{Falls, Same, in_array_end, in_elements, in_expr, in_pairs};
ghost use Rattle.js_machine.specs.Rest.{in_value, rest};
ghost use Rattle.js_machine.specs.State.{object_value};

use crate::frame::{Control, Frame};
use crate::machine::Machine;
use dl_text::{Units, units_of};
use js_code::{ElementCodes, PairCodes};
use js_values::{Num, Value, text_of_num};
use object_heap::{BuiltIn, Class};
use std::alloc::{AllocError, Global};

/// The name of an index.
fn index_name(alloc: Global, index: u32) -> Result<Units, AllocError>
    ensures { IfOk result (λ name. name ≡ decimal index) }
{
    text_of_num(alloc, Num::from(index), 10)
}

/// The first place from one on at which no hole stands. It finds no memory behind 2^32 - 1 holes.
#[tactic(auto, using(crate::proofs::LiteralLaws::hole_laws))]
fn behind_holes(elements: &ElementCodes, from: u32) -> Result<u32, AllocError>
    ensures skips { IfOk result (λ i. Skips (elements_from elements.now from) from
        (elements_from elements.now i) i) }
    ensures no_hole { IfOk result (λ i.
        begins_with_hole (elements_from elements.now i) ≡ false) }
{
    let mut i = from;
    while let Some(None) = elements.get(i as usize) {
        if i == u32::MAX {
            return Err(AllocError);
        }
        i += 1;
    }
    Ok(i)
}

impl Machine {
    /// A new object of a class with this prototype is the newest value.
    fn push_new(&mut self, class: Class, prototype: BuiltIn) -> Result<(), AllocError>
        ensures { IfOk result (λ _. self.new ≡ record self.old {
          heap = self.old.heap ++ new_object class (Some (built_ins.number_of prototype)) ∷ [];
          values = object_value (length self.old.heap) ∷ self.old.values;
        }) }
    {
        let prototype = self.heap.built_in(prototype);
        let object = self.heap.make(class, Some(prototype))?;
        self.values.push(Value::Object(object))
    }

    #[inline]
    #[tactic(auto, using(crate::proofs::LiteralLaws::array_begun))]
    pub(crate) fn begin_array(&mut self, elements: &ElementCodes) -> Result<Control, AllocError>
        ensures same { IfOk result (λ next.
            Same (in_expr (tree.Array (elements_from elements.now 0))) self.old next self.new) }
        ensures falls { IfOk result (λ next. Falls self.old next self.new) }
        ensures rightly { IfOk result (λ next. StopsRightly next self.new) }
    {
        let elements = elements.share()?;
        self.push_new(Class::Array, BuiltIn::ArrayPrototype)?;
        self.next_element(0, elements)
    }

    /// The elements from one on are begun, and then `length` is written.
    #[tactic(auto, using(crate::proofs::LiteralLaws::element_laws))]
    fn next_element(&mut self, from: u32, elements: ElementCodes) -> Result<Control, AllocError>
        ensures same { IfOk result (λ next.
            Same (in_elements from elements) self.old next self.new) }
        ensures falls { IfOk result (λ next. Falls self.old next self.new) }
        ensures rightly { IfOk result (λ next. StopsRightly next self.new) }
    {
        let i = behind_holes(&elements, from)?;
        match elements.get(i as usize) {
            None => self.end_array(i),
            Some(Some(element)) => {
                let element = element.share()?;
                self.wait(Frame::Element(i, elements), Control::Expr(element))
            }
            Some(None) => unreachable!(),
        }
    }

    /// The array is there but for its `length`.
    #[tactic(auto, using(crate::proofs::LiteralLaws::end_laws))]
    fn end_array(&mut self, count: u32) -> Result<Control, AllocError>
        ensures same { IfOk result (λ next. Same (in_array_end count) self.old next self.new) }
        ensures falls { IfOk result (λ next. Falls self.old next self.new) }
        ensures rightly { IfOk result (λ next. StopsRightly next self.new) }
    {
        let array = self.newest_object();
        let _array = self.values.pop();
        let length = units_of(self.alloc, "length")?;
        if self.put(array, &length, Value::Num(Num::from(count)))? {
            self.answer(Value::Object(array))
        } else {
            self.throw_error(BuiltIn::RangeErrorPrototype)
        }
    }

    #[tactic(auto, using(crate::proofs::LiteralLaws::element_values))]
    pub(crate) fn give_element(
        &mut self,
        i: u32,
        elements: ElementCodes,
    ) -> Result<Control, AllocError>
        ensures same { IfOk result (λ next.
            Same (in_value (Frame.Element i elements)) self.old next self.new) }
        ensures falls { IfOk result (λ next. Falls self.old next self.new) }
        ensures rightly { IfOk result (λ next. StopsRightly next self.new) }
    {
        if i == u32::MAX {
            return Err(AllocError);
        }
        let v = self.values.pop();
        let name = index_name(self.alloc, i)?;
        let array = self.newest_object();
        if self.put(array, &name, v)? {
            self.next_element(i + 1, elements)
        } else {
            let _array = self.values.pop();
            self.throw_error(BuiltIn::RangeErrorPrototype)
        }
    }

    #[inline]
    #[tactic(auto, using(crate::proofs::LiteralLaws::object_begun))]
    pub(crate) fn begin_object(&mut self, pairs: &PairCodes) -> Result<Control, AllocError>
        ensures same { IfOk result (λ next.
            Same (in_expr (tree.Object (pairs_from pairs.now 0))) self.old next self.new) }
        ensures falls { IfOk result (λ next. Falls self.old next self.new) }
        ensures rightly { IfOk result (λ next. StopsRightly next self.new) }
    {
        let pairs = pairs.share()?;
        self.push_new(Class::Plain, BuiltIn::ObjectPrototype)?;
        self.next_pair(0, pairs)
    }

    /// The values from one pair on are begun, and then the object is the value.
    #[tactic(auto, using(crate::proofs::LiteralLaws::pair_laws))]
    fn next_pair(&mut self, i: u32, pairs: PairCodes) -> Result<Control, AllocError>
        ensures same { IfOk result (λ next. Same (in_pairs i pairs) self.old next self.new) }
        ensures falls { IfOk result (λ next. Falls self.old next self.new) }
        ensures rightly { IfOk result (λ next. StopsRightly next self.new) }
    {
        let Some(pair) = pairs.get(i as usize) else {
            let object = self.newest_object();
            let _object = self.values.pop();
            return self.answer(Value::Object(object));
        };
        let value = pair.value.share()?;
        self.wait(Frame::Pair(i, pairs), Control::Expr(value))
    }

    #[tactic(auto, using(crate::proofs::LiteralLaws::pair_values))]
    pub(crate) fn give_pair(&mut self, i: u32, pairs: PairCodes) -> Result<Control, AllocError>
        ensures same { IfOk result (λ next.
            Same (in_value (Frame.Pair i pairs)) self.old next self.new) }
        ensures falls { IfOk result (λ next. Falls self.old next self.new) }
        ensures rightly { IfOk result (λ next. StopsRightly next self.new) }
    {
        if i == u32::MAX {
            return Err(AllocError);
        }
        let v = self.values.pop();
        let Some(pair) = pairs.get(i as usize) else {
            let _object = self.values.pop();
            return Ok(Control::Done);
        };
        let object = self.newest_object();
        if self.put(object, &pair.key, v)? {
            self.next_pair(i + 1, pairs)
        } else {
            let _object = self.values.pop();
            self.throw_error(BuiltIn::RangeErrorPrototype)
        }
    }
}
