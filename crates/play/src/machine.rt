ghost use Rattle.std.specs.Prelude.{◌≡◌, ◌+◌, ◌<◌, ◌∷◌, ◌++◌, [], List, ℕ, drop, map, IfOk, OnOk, IsSome, MatchOption, slice_get};
ghost use Rattle.first_grammar.specs.First.{out_name};
ghost use Rattle.play.specs.Value.{ShownText};
ghost use Rattle.play.specs.Report.{CallLine, IdleLine, line_text};
ghost use Rattle.play.specs.Run.{function_named};
ghost use Rattle.play.specs.Machine.{func_of, IsSound, StubIs, Halts, Turns, work};
ghost use Rattle.play.specs.Calls.{IsCall, IsOut, IsNamed, PlainNamed, StubNamed, IsHere, HereNamed};

use crate::clock::Clock;
use crate::code::{Code, Rest};
use crate::report::{push_call, push_idle, push_uncaught};
use crate::table::{Body, Continuation, Entry, EntryPlace, Frame, Function, Table};
use dl_text::Text;
use first_grammar::FirstStatement;
use sqlite_items::Items;
use std::alloc::AllocError;
use std::mem;

/// Why a machine does not go on.
#[derive(Clone, Copy, PartialEq, Eq)]
pub enum Halt {
    Ended,
    OutOfSteps,
    /// A stub is called whose cluster, at this place of the manifest, is not here.
    Needs(usize),
}

/// The run of a script: where it is, what waits, the steps and beats, and the report so far.
#[derive(Drop)]
pub struct Machine {
    pub place: Continuation,
    pub frames: Items<Frame>,
    pub clock: Clock,
    pub report: Text,
}

/// The steps of an expression statement that calls a name, up to the value of the name (ES3
/// sections 12.4, 11.2.3, 10.1.4).
const NAME_STEPS: u64 = 3;

/// The same with the function's entry.
const CALL_STEPS: u64 = 4;

/// The steps of a host call with a text (ES3 sections 12.4, 11.2.3, 11.2.1).
const OUT_STEPS: u64 = 6;

/// The steps of a stub's body up to the late function's body (ES3 sections 12.9, 11.2.3, 15.3.4.3).
const STUB_STEPS: u64 = 8;

/// Adds the line of the host call that stands first.
fn push_first(report: &mut Text, rest: &Rest) -> Result<(), AllocError>
    ensures { OnOk result ((text : List ℕ) → slice_get rest.now 0 ≡ Some (FirstStatement.Out text)
        → report.new ≡ report.old ++ line_text (CallLine out_name (ShownText text ∷ []))) }
{
    match rest.first() {
        Some(FirstStatement::Out(text)) => push_call(report, text),
        _ => Ok(()),
    }
}

/// The function that counts for a letter.
#[tactic(auto, using(crate::proofs::TableLemmas::named_found, crate::proofs::TableLemmas::named_missing))]
fn function_named<'a>(table: &'a Table, letter: u8) -> Option<&'a Function>
    requires { IsSound table.now }
    ensures { MatchOption result
        (function_named (map func_of table.now.functions) (letter ∷ []) ≡ None)
        (λ f. IsNamed table.now letter f.now) }
{
    match table.names.get(usize::from(letter)) {
        None => None,
        Some(None) => None,
        Some(Some(index)) => table.functions.get(*index),
    }
}

/// The entry of a stub, where its cluster is here.
#[tactic(auto, using(crate::proofs::TableLemmas::entry_found, crate::proofs::TableLemmas::entry_missing))]
fn entry_at<'a>(table: &'a Table, number: u32, place: EntryPlace) -> Option<&'a Entry>
    requires sound { IsSound table.now }
    requires stub { StubIs table.now.manifest number place }
    ensures { MatchOption result
        (slice_get table.now.loaded place.cluster ≡ Some None)
        (λ e. IsHere table.now number place e.now) }
{
    match table.loaded.get(place.cluster) {
        None => None,
        Some(None) => None,
        Some(Some(entries)) => entries.get(place.entry),
    }
}

impl Machine {
    /// Runs up to the end, or to the call of a stub whose cluster is not here.
    pub fn run(&mut self, table: &Table) -> Result<Halt, AllocError>
        requires { IsSound table.now }
        ensures { IfOk result (Halts table.now self.old self.new) }
    {
        'turns: loop {
            if let Some(halt) = self.turn(table)? {
                return Ok(halt);
            }
        }
    }

    /// Runs one statement, or goes back to a caller.
    fn turn(&mut self, table: &Table) -> Result<Option<Halt>, AllocError>
        requires { IsSound table.now }
        ensures turns { IfOk result (Turns table.now self.old self.new) }
        ensures falls { IfOk result (λ halt. halt ≡ None → work self.new < work self.old) }
    {
        match self.place.rest.first() {
            None => self.leave(table),
            Some(FirstStatement::Call(letter)) => {
                let letter = *letter;
                self.call(table, letter)
            }
            Some(FirstStatement::Out(_)) => self.call_host(table),
        }
    }

    /// Takes the steps that are left.
    fn run_out(&mut self) -> Option<Halt>
        ensures halt { result ≡ Some Halt.OutOfSteps }
        ensures steps { self.new.clock.steps ≡ self.old.clock.left + self.old.clock.steps }
        ensures report { self.new.report ≡ self.old.report }
    {
        self.clock.run_out();
        Some(Halt::OutOfSteps)
    }

    /// Ends the scripts.
    fn idle(&mut self) -> Result<(), AllocError>
        ensures clock { self.new.clock ≡ self.old.clock }
        ensures report { OnOk result (self.new.report ≡ self.old.report ++ line_text IdleLine) }
    {
        push_idle(&mut self.report)
    }

    /// Goes on behind the call, where a body is over; the script's own ends the run.
    #[tactic(auto, using(crate::proofs::TurnLemmas::leaving))]
    fn leave(&mut self, table: &Table) -> Result<Option<Halt>, AllocError>
        requires { self.old.place.rest ≡ [] }
        ensures turns { IfOk result (Turns table.now self.old self.new) }
        ensures falls { IfOk result (λ halt. halt ≡ None → work self.new < work self.old) }
    {
        match self.frames.pop() {
            None => {
                self.idle()?;
                Ok(Some(Halt::Ended))
            }
            Some(Frame::Call(place)) => {
                self.place = place;
                Ok(None)
            }
            Some(Frame::Late(place)) => {
                self.place = place;
                Ok(None)
            }
        }
    }

    /// A host call with a text.
    fn call_host(&mut self, table: &Table) -> Result<Option<Halt>, AllocError>
        requires { IsOut self.old.place.rest }
        ensures turns { IfOk result (Turns table.now self.old self.new) }
        ensures falls { IfOk result (λ halt. halt ≡ None → work self.new < work self.old) }
    {
        if !self.clock.take(OUT_STEPS) {
            return Ok(self.run_out());
        }
        push_first(&mut self.report, &self.place.rest)?;
        self.place.rest.pass();
        Ok(None)
    }

    /// A call of a name that no function has: a ReferenceError, which leaves the script.
    #[tactic(auto, using(crate::proofs::TurnLemmas::ends_uncaught, crate::proofs::TurnLemmas::name_runs_out))]
    fn call_unbound(&mut self, table: &Table, letter: u8) -> Result<Option<Halt>, AllocError>
        requires here { IsCall letter self.old.place.rest }
        requires unbound { function_named (map func_of table.now.functions) (letter ∷ []) ≡ None }
        ensures turns { IfOk result (Turns table.now self.old self.new) }
        ensures falls { IfOk result (λ halt. IsSome halt) }
    {
        if !self.clock.take(NAME_STEPS) {
            return Ok(self.run_out());
        }
        push_uncaught(&mut self.report)?;
        self.idle()?;
        Ok(Some(Halt::Ended))
    }

    /// A call of a plain function: its body runs in a scope inside the global one.
    #[tactic(auto, using(crate::proofs::TurnLemmas::keeps_plain, crate::proofs::TurnLemmas::call_runs_out))]
    fn call_plain(
        &mut self,
        table: &Table,
        letter: u8,
        number: u32,
        code: &Code,
    ) -> Result<Option<Halt>, AllocError>
        requires here { IsCall letter self.old.place.rest }
        requires named { PlainNamed table.now letter number code.now }
        ensures turns { IfOk result (Turns table.now self.old self.new) }
        ensures falls { IfOk result (λ halt. halt ≡ None → work self.new < work self.old) }
    {
        if !self.clock.take(CALL_STEPS) {
            return Ok(self.run_out());
        }
        self.clock.beat();
        let back = self.go_to(code, 1)?;
        self.frames.push(Frame::Call(back))?;
        Ok(None)
    }

    /// Begins a body, with so many functions' scopes around its statements, and gives where the
    /// caller goes on.
    fn go_to(&mut self, code: &Code, depth: u64) -> Result<Continuation, AllocError>
        ensures back { IfOk result (λ back.
            (back.rest ≡ drop 1 self.old.place.rest) × (back.depth ≡ self.old.place.depth)) }
        ensures place { OnOk result
            ((self.new.place.rest ≡ code.now) × (self.new.place.depth ≡ depth)) }
        ensures others { OnOk result
            ((self.new.frames ≡ self.old.frames)
            × (self.new.clock ≡ self.old.clock)
            × (self.new.report ≡ self.old.report)) }
    {
        let rest = Rest::new(code.share()?);
        let mut back = mem::replace(&mut self.place, Continuation { rest, depth });
        back.rest.pass();
        Ok(back)
    }

    /// A call of a stub. Its late function is made in the stub's scope, so its body has one scope
    /// more around it.
    fn call_stub(
        &mut self,
        table: &Table,
        letter: u8,
        number: u32,
        place: EntryPlace,
    ) -> Result<Option<Halt>, AllocError>
        requires sound { IsSound table.now }
        requires here { IsCall letter self.old.place.rest }
        requires named { StubNamed table.now letter number }
        requires stub { StubIs table.now.manifest number place }
        ensures turns { IfOk result (Turns table.now self.old self.new) }
        ensures falls { IfOk result (λ halt. halt ≡ None → work self.new < work self.old) }
    {
        match entry_at(table, number, place) {
            None => Ok(self.need(table, letter, number, place)),
            Some(entry) => self.call_late(table, letter, number, entry),
        }
    }

    /// A call of a stub whose cluster is not here: where the entry's step is left, the cluster is
    /// needed first.
    #[tactic(auto, using(crate::proofs::TurnLemmas::needing))]
    fn need(&mut self, table: &Table, letter: u8, number: u32, place: EntryPlace) -> Option<Halt>
        requires here { IsCall letter self.old.place.rest }
        requires named { StubNamed table.now letter number }
        requires stub { StubIs table.now.manifest number place }
        requires absent { slice_get table.now.loaded place.cluster ≡ Some None }
        ensures turns { Turns table.now self.old self.new result }
        ensures halts { IsSome result }
    {
        if self.clock.left < CALL_STEPS {
            return self.run_out();
        }
        Some(Halt::Needs(place.cluster))
    }

    /// A call of a stub whose cluster is here.
    #[tactic(auto, using(crate::proofs::TurnLemmas::calling_late))]
    fn call_late(
        &mut self,
        table: &Table,
        letter: u8,
        number: u32,
        entry: &Entry,
    ) -> Result<Option<Halt>, AllocError>
        requires sound { IsSound table.now }
        requires here { IsCall letter self.old.place.rest }
        requires named { StubNamed table.now letter number }
        requires entry { HereNamed table.now number entry.now }
        ensures turns { IfOk result (Turns table.now self.old self.new) }
        ensures falls { IfOk result (λ halt. halt ≡ None → work self.new < work self.old) }
    {
        if !self.clock.take(CALL_STEPS) {
            return Ok(self.run_out());
        }
        self.clock.beat();
        if !self.clock.take(STUB_STEPS) {
            return Ok(self.run_out());
        }
        let back = self.go_to(&entry.code, 2)?;
        self.frames.push(Frame::Late(back))?;
        Ok(None)
    }

    /// A call of a name.
    fn call(&mut self, table: &Table, letter: u8) -> Result<Option<Halt>, AllocError>
        requires sound { IsSound table.now }
        requires here { IsCall letter self.old.place.rest }
        ensures turns { IfOk result (Turns table.now self.old self.new) }
        ensures falls { IfOk result (λ halt. halt ≡ None → work self.new < work self.old) }
    {
        match function_named(table, letter) {
            None => self.call_unbound(table, letter),
            Some(function) => match &function.body {
                Body::Statements(code) => self.call_plain(table, letter, function.number, code),
                Body::Stub(place) => self.call_stub(table, letter, function.number, *place),
            },
        }
    }
}
