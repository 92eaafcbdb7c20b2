//! `format`: a script as the printer writes it.

ghost use Rattle.std.specs.Prelude.{◌≡◌, IfOk};
ghost use Rattle.std.specs.Option.{ForSome};
ghost use Rattle.dl_ports.specs.Counts.{CountsFault};
ghost use Rattle.dl_ports.specs.Stores.{OnlyReads};
ghost use Rattle.js_tree.specs.Plain as plain;
ghost use Rattle.doloto_app.specs.Ends.{MayPut};
ghost use Rattle.doloto_app.specs.Formats.{FormatEnds, IsStatusOf, PutsScript};

use crate::status::{Refusal, Status};
use crate::words::WordFault;
use dl_ports::{PortError, Sink, Store, put_all};
use dl_text::Text;
use js_printer::print_script;
use js_tree::Script;
use source_files::{SourceError, SourceRoom, read_source};
use std::alloc::{AllocError, Global};

/// A text of this name.
fn name_of(alloc: Global, name: &str) -> Result<Text, AllocError>
    ensures { IfOk result (λ text. text ≡ name.now) }
{
    let mut text = Text::new(alloc);
    text.extend(name.as_bytes())?;
    Ok(text)
}

/// Writes a script once it is printed whole.
fn write_script<K: Sink>(alloc: Global, script: &Script, out: &mut K) -> Status
    ensures puts { PutsScript (plain.script script.now)
        (K.written out.old) (K.written out.new) result }
    ensures writes { CountsFault (result ≡ Status.WriteFault)
        (K.faults out.old) (K.faults out.new) }
{
    let Ok(text) = print_script(alloc, script) else {
        return Status::OutOfMemory;
    };
    match put_all(out, text.items()) {
        Err(PortError::Failed) => Status::WriteFault,
        Err(PortError::OutOfMemory) => Status::OutOfMemory,
        Ok(()) => Status::Ended,
    }
}

/// The status of a script that was not read.
fn refused(alloc: Global, name: &str, error: SourceError) -> Status
    ensures { IsStatusOf name.now error result }
{
    match error {
        SourceError::ReadFault => Status::ReadFault,
        SourceError::Refused(fault) => Status::Refused(Refusal::Script(1, fault)),
        SourceError::OutOfMemory => Status::OutOfMemory,
        SourceError::Missing => match name_of(alloc, name) {
            Ok(name) => Status::Missing(name),
            Err(_) => Status::OutOfMemory,
        },
    }
}

/// Reads the script of a file, and writes it as the printer does.
pub fn format_out<S: Store, K: Sink>(
    alloc: Global,
    script: &str,
    store: &mut S,
    out: &mut K,
) -> Status
    ensures formats { ForSome (S.files store.old) (λ files.
        FormatEnds files script.now (S.asked store.old) (S.asked store.new)
        (K.written out.old) (K.written out.new) result) }
    ensures reads { OnlyReads S.Store store.old store.new (result ≡ Status.ReadFault) }
    ensures writes { CountsFault (result ≡ Status.WriteFault)
        (K.faults out.old) (K.faults out.new) }
    ensures nothing_put { MayPut result (K.written out.old) (K.written out.new) }
    ensures not_words { result ≡ Status.Words WordFault.First → ⊥ }
{
    match read_source(alloc, script, SourceRoom::whole(), store) {
        Err(error) => refused(alloc, script, error),
        Ok(tree) => write_script(alloc, &tree, out),
    }
}
