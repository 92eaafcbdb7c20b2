ghost use Rattle.std.specs.Prelude.{◌≡◌, ◌⊎◌, ◌↔◌, List, ℕ, None};
ghost use Rattle.dl_ports.specs.Counts.{CountsFault};
ghost use Rattle.dl_ports.specs.Files.{Files};
ghost use Rattle.dl_ports.specs.Stores.{OnlyReads};
ghost use Rattle.js_tree.specs.Tree.{Script};
ghost use Rattle.play.specs.Headline.{PutsBackTo};
ghost use Rattle.play.specs.Played.{Gives, played_page};
ghost use Rattle.play.specs.declared.outcome.End.{End as AnEnd};
ghost use Rattle.doloto_app.specs.Words.{Commands, Format, Play, default_steps, said};
ghost use Rattle.doloto_app.specs.Ends.{Ends, MayPut, NoFault, WritesLoads, WritesOriginal};
ghost use Rattle.doloto_app.specs.Ends.{status_of_end};
ghost use Rattle.doloto_app.specs.Formats.{FormatEnds, HasScript};

use crate::formatting::format_out;
use crate::playing::play_out;
use crate::status::Status;
use crate::words::{Command, WordFault, command_in};
use dl_ports::{Sink, Store};
use std::alloc::Global;

/// Runs the command of the words, over these ports.
///
/// `play SITE PAGE` reads the page and the files of the site, and writes the report to `out` once
/// it is whole. Where the site's files put back to a script, the report shows that script's host
/// calls and uncaught exceptions, and waits for each cluster where that script first enters one of
/// its functions. `format SCRIPT` reads the script and writes it as the printer does. Other words
/// are refused.
pub fn doloto_top<S: Store, K: Sink>(
    alloc: Global,
    words: &[String],
    store: &mut S,
    out: &mut K,
) -> Status
    ensures words { (result ≡ Status.Words WordFault.First) ↔ (said words.now ≡ None) }
    ensures nothing_asked { said words.now ≡ None → S.asked store.new ≡ S.asked store.old }

    ensures plays { (site page : List ℕ) (files : Files)
        → Commands S.Store store.old words.now (Play site page) files
        → Ends (played_page files site page default_steps)
        (S.asked store.old) (S.asked store.new)
        (K.written out.old) (K.written out.new) result }
    ensures complete { (site page : List ℕ) (files : Files) (report : List ℕ) (e : AnEnd)
        → Commands S.Store store.old words.now (Play site page) files
        → (played_page files site page default_steps).answer ≡ Gives report e
        → NoFault (S.faults store.old) (S.faults store.new)
        → NoFault (K.faults out.old) (K.faults out.new)
        → (result ≡ status_of_end e) ⊎ (result ≡ Status.OutOfMemory) }
    ensures headline { (site page : List ℕ) (files : Files) (script : Script)
        → Commands S.Store store.old words.now (Play site page) files
        → PutsBackTo files site script
        → WritesOriginal (K.written out.old) (K.written out.new) script default_steps result }
    ensures laziness { (site page : List ℕ) (files : Files) (script : Script)
        → Commands S.Store store.old words.now (Play site page) files
        → (back : PutsBackTo files site script)
        → WritesLoads (K.written out.old) (K.written out.new)
        back.manifest script default_steps result }

    ensures formats { (script : List ℕ) (files : Files)
        → Commands S.Store store.old words.now (Format script) files
        → FormatEnds files script (S.asked store.old) (S.asked store.new)
        (K.written out.old) (K.written out.new) result }
    ensures formats_whole { (script : List ℕ) (files : Files) (tree : Script)
        → Commands S.Store store.old words.now (Format script) files
        → HasScript files script tree
        → NoFault (S.faults store.old) (S.faults store.new)
        → NoFault (K.faults out.old) (K.faults out.new)
        → (result ≡ Status.Ended) ⊎ (result ≡ Status.OutOfMemory) }

    ensures reads { OnlyReads S.Store store.old store.new (result ≡ Status.ReadFault) }
    ensures writes { CountsFault (result ≡ Status.WriteFault)
        (K.faults out.old) (K.faults out.new) }
    ensures nothing_put { MayPut result (K.written out.old) (K.written out.new) }
{
    match command_in(words) {
        None => Status::Words(WordFault::First),
        Some(Command::Play { site, page }) => play_out(alloc, site, page, store, out),
        Some(Command::Format { script }) => format_out(alloc, script, store, out),
    }
}
