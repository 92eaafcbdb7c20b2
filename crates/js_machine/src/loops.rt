//! Loops (ES3 12.6.1 to 12.6.3).

ghost use Rattle.std.specs.Prelude.{◌≡◌, ◌∷◌, ◌≤◌, ◌<◌, ◌+◌, ◌*◌, length, IfOk};
ghost use Rattle.js_machine.specs.NotBuilt.{StopsRightly};
ghost use Rattle.js_machine.specs.Rest.{Falls, Same, in_turn, in_update, in_value, rest};

use crate::frame::{Control, Frame};
use crate::machine::Machine;
use js_code::StmtCode;
use js_values::to_boolean;
use std::alloc::AllocError;

impl Machine {
    /// A turn begins, with the test where there is one.
    #[inline]
    #[tactic(auto, using(crate::proofs::LoopLaws::turn_laws))]
    pub(crate) fn turn(&mut self, s: StmtCode) -> Result<Control, AllocError>
        ensures same { IfOk result (λ next. Same (in_turn s) self.old next self.new) }
        ensures falls { IfOk result (λ next. Falls self.old next self.new) }
        ensures rightly { IfOk result (λ next. StopsRightly next self.new) }
    {
        let Some(parts) = s.as_loop() else {
            return Ok(Control::Done);
        };
        match parts.test {
            Some(test) => {
                let turn = s.share()?;
                self.frames.push(Frame::Turn(turn))?;
                if self.push_at_once(test)? {
                    return self.give_test(s);
                }
                let test = test.share()?;
                self.frames.push(Frame::Test(s))?;
                Ok(Control::Expr(test))
            }
            None => {
                let body = parts.body.share()?;
                self.frames.push(Frame::Turn(s))?;
                Ok(Control::Body(body))
            }
        }
    }

    /// A turn ended: what stands between two turns.
    #[inline]
    #[tactic(auto, using(crate::proofs::LoopLaws::update_laws))]
    pub(crate) fn update(&mut self, s: StmtCode) -> Result<Control, AllocError>
        ensures same { IfOk result (λ next. Same (in_update s) self.old next self.new) }
        ensures falls { IfOk result (λ next. Falls self.old next self.new) }
        ensures rightly { IfOk result (λ next. StopsRightly next self.new) }
    {
        let Some(parts) = s.as_loop() else {
            return Ok(Control::Done);
        };
        match parts.update {
            Some(update) => {
                let update = update.share()?;
                self.frames.push(Frame::Again(s))?;
                Ok(Control::Expr(update))
            }
            None => self.turn(s),
        }
    }

    /// The test has its value.
    #[inline]
    #[tactic(auto, using(crate::proofs::LoopLaws::test_laws))]
    pub(crate) fn give_test(&mut self, s: StmtCode) -> Result<Control, AllocError>
        ensures same { IfOk result (λ next. Same (in_value (Frame.Test s)) self.old next self.new) }
        ensures falls { IfOk result (λ next. Falls self.old next self.new) }
        ensures rightly { IfOk result (λ next. StopsRightly next self.new) }
    {
        let v = self.values.pop();
        let Some(parts) = s.as_loop() else {
            return Ok(Control::Done);
        };
        if to_boolean(&v) {
            Ok(Control::Body(parts.body.share()?))
        } else {
            Ok(Control::Break)
        }
    }
}
