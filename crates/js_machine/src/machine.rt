//! The machine, and how it hands on what comes next.

ghost use Rattle.std.specs.Prelude.{◌≡◌, ◌∷◌, IfOk};

use crate::clock::Clock;
use crate::frame::{Control, Frame};
use crate::hosts::Hosts;
use crate::stacks::{Frames, Values};
use crate::task::Task;
use js_code::ExprCode;
use js_values::Value;
use object_heap::Heap;
use std::alloc::{AllocError, Global};

/// A machine that runs scripts.
#[derive(Drop)]
pub struct Machine {
    pub(crate) alloc: Global,
    pub(crate) heap: Heap,
    /// The host calls, by their objects.
    pub(crate) hosts: Hosts,
    pub(crate) frames: Frames,
    pub(crate) values: Values,
    pub(crate) clock: Clock,
    pub(crate) beats: u64,
    pub(crate) task: Option<Task>,
}

impl Machine {
    /// A value is given.
    #[inline]
    pub(crate) fn answer(&mut self, v: Value) -> Result<Control, AllocError>
        ensures { IfOk result (λ next. (next ≡ Control.Give)
            × (self.new ≡ record self.old { values = v ∷ self.old.values })) }
    {
        self.values.push(v)?;
        Ok(Control::Give)
    }

    /// The expression is begun, and then the frame takes its value.
    #[inline]
    pub(crate) fn first(&mut self, frame: Frame, e: &ExprCode) -> Result<Control, AllocError>
        ensures { IfOk result (λ next. (next ≡ Control.Expr e.now)
            × (self.new ≡ record self.old { frames = frame ∷ self.old.frames })) }
    {
        let e = e.share()?;
        self.frames.push(frame)?;
        Ok(Control::Expr(e))
    }
}
