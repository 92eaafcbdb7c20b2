//! `play`: the site of a folder for a page.

ghost use Rattle.std.specs.Prelude.{◌≡◌};
ghost use Rattle.std.specs.Option.{ForSome};
ghost use Rattle.dl_ports.specs.Counts.{CountsFault};
ghost use Rattle.dl_ports.specs.Stores.{OnlyReads};
ghost use Rattle.js_tree.specs.Tree.{Script};
ghost use Rattle.play.specs.Headline.{PutsBackTo};
ghost use Rattle.play.specs.Played.{played_page};
ghost use Rattle.doloto_app.specs.Words.{default_steps};
ghost use Rattle.doloto_app.specs.Ends.{Ends, MayPut, Puts, WritesLoads, WritesOriginal};
ghost use Rattle.doloto_app.specs.Ends.{status_of};

use crate::status::{Refusal, Status};
use crate::words::WordFault;
use dl_ports::{PortError, Sink, Store, put_all};
use play::{End, FirstError, Outcome, play_page};
use std::alloc::Global;

/// The steps that a run may take where the words do not say how many.
const DEFAULT_STEPS: u64 = 10_000_000;

/// The status of a play that has no report.
fn status_of(error: FirstError) -> Status
    ensures { result ≡ status_of error }
{
    match error {
        FirstError::ReadFault => Status::ReadFault,
        FirstError::Missing(name) => Status::Missing(name),
        FirstError::First(file) => Status::Refused(Refusal::First(file)),
        FirstError::OutOfMemory => Status::OutOfMemory,
    }
}

/// Writes the report of an outcome. The status is that of its end.
fn write_report<K: Sink>(outcome: &Outcome, out: &mut K) -> Status
    ensures puts { Puts outcome.now (K.written out.old) (K.written out.new) result }
    ensures writes { CountsFault (result ≡ Status.WriteFault)
        (K.faults out.old) (K.faults out.new) }
{
    match put_all(out, outcome.report.items()) {
        Err(PortError::Failed) => Status::WriteFault,
        Err(PortError::OutOfMemory) => Status::OutOfMemory,
        Ok(()) => match outcome.end {
            End::Ended => Status::Ended,
            End::OutOfSteps => Status::OutOfSteps,
        },
    }
}

/// Plays the site of a folder for a page, and writes the report once it is whole.
pub fn play_out<S: Store, K: Sink>(
    alloc: Global,
    site: &str,
    page: &str,
    store: &mut S,
    out: &mut K,
) -> Status
    ensures plays { ForSome (S.files store.old) (λ files.
        Ends (played_page files site.now page.now default_steps)
        (S.asked store.old) (S.asked store.new)
        (K.written out.old) (K.written out.new) result) }
    ensures headline { ForSome (S.files store.old) (λ files.
        (script : Script) → PutsBackTo files site.now script
        → WritesOriginal (K.written out.old) (K.written out.new) script default_steps result) }
    ensures laziness { ForSome (S.files store.old) (λ files.
        (script : Script) (back : PutsBackTo files site.now script)
        → WritesLoads (K.written out.old) (K.written out.new)
        back.manifest script default_steps result) }
    ensures reads { OnlyReads S.Store store.old store.new (result ≡ Status.ReadFault) }
    ensures writes { CountsFault (result ≡ Status.WriteFault)
        (K.faults out.old) (K.faults out.new) }
    ensures nothing_put { MayPut result (K.written out.old) (K.written out.new) }
    ensures not_words { result ≡ Status.Words WordFault.First → ⊥ }
{
    match play_page(alloc, page, site, DEFAULT_STEPS, store) {
        Err(error) => status_of(error),
        Ok(outcome) => write_report(&outcome, out),
    }
}
