ghost use Rattle.std.specs.Prelude.{◌≡◌, ◌<◌, ◌++◌, length, map, Some, true, string_bytes, IfOk, IfErr, IsErrOf, OnOk};
ghost use Rattle.std.specs.Option.{ForSome};
ghost use Rattle.dl_ports.specs.Stores.{OnlyReads};
ghost use Rattle.play.specs.Site.{Fits, manifest_name, script_name};
ghost use Rattle.play.specs.Played.{played, is_page, for_script, for_manifest, for_folder, played_page};
ghost use Rattle.js_tree.specs.Tree.{Script};
ghost use Rattle.play.specs.Headline.{PutsBackTo, ShowsOriginal};
ghost use Rattle.play.specs.Laziness.{ShowsLoads};
ghost use Rattle.play.specs.Manifest.{IsManifest};
ghost use Rattle.play.specs.Tables.{statements_of};
ghost use Rattle.play.specs.Answers.{Meets, ErrorMeets, Finds, NeedFails, Fetches, FetchFails, Loads, OneMore, SiteAgrees, site_left};
ghost use Rattle.play.specs.Machine.{IsSound, entry_number, NeedsNext, with_entries, with_arrival, begun};
ghost use Rattle.play.specs.Report.{numbered_line};

use crate::clock::Clock;
use crate::clusters::{cluster_name, read_cluster};
use crate::code::{Code, Rest};
use crate::machine::{Halt, Machine};
use crate::manifest::{ClusterLine, Manifest, read_manifest};
use crate::outcome::{End, FirstError, FirstFile, Outcome};
use crate::report::{push_arrival, push_numbered};
use crate::site::{read_script, statements_of, table_of};
use crate::table::{Continuation, Entries, Table};
use dl_ports::Store;
use dl_text::Text;
use first_grammar::FirstItem;
use sqlite_items::Items;
use std::alloc::{AllocError, Global};

/// The page of the first grammar.
const PAGE: &[u8] = b"{\"host\":[\"out\"]}";

/// Whether a page is the one of the first grammar, with or without a line feed.
fn is_page(page: &[u8]) -> bool
    ensures { result ≡ is_page page.now }
{
    page == PAGE || page == b"{\"host\":[\"out\"]}\n".as_slice()
}

/// A text of these bytes.
fn text_of(alloc: Global, bytes: &[u8]) -> Result<Text, AllocError>
    ensures { IfOk result (λ text. text ≡ bytes.now) }
{
    let mut text = Text::new(alloc);
    text.extend(bytes)?;
    Ok(text)
}

/// The bytes of a file that is needed.
fn read_needed<S: Store>(alloc: Global, name: &str, store: &mut S) -> Result<Vec<u8>, FirstError>
    ensures found { IfOk result (λ bytes. ForSome (S.files store.old) (λ files.
        Finds files name.now (S.asked store.old) (S.asked store.new) bytes.items)) }
    ensures refused { IfErr result (λ e. ForSome (S.files store.old) (λ files.
        NeedFails files name.now (S.asked store.old) (S.asked store.new) e)) }
    ensures reads { OnlyReads S.Store store.old store.new (IsErrOf result FirstError.ReadFault) }
{
    match store.read(name)? {
        Some(bytes) => Ok(bytes),
        None => Err(FirstError::Missing(text_of(alloc, name.as_bytes())?)),
    }
}

/// The entries of a cluster, from its file.
#[tactic(auto, using(crate::proofs::EntryLemmas::numbers_of_loaded))]
fn fetch<S: Store>(
    alloc: Global,
    line: &ClusterLine,
    folder: &str,
    store: &mut S,
) -> Result<Entries, FirstError>
    ensures fetched { IfOk result (λ es. ForSome (S.files store.old) (λ files.
        Fetches files folder.now line.now es (S.asked store.old) (S.asked store.new))) }
    ensures listed { IfOk result (λ es. map entry_number es ≡ line.now.entries) }
    ensures refused { IfErr result (λ e. ForSome (S.files store.old) (λ files.
        FetchFails files folder.now line.now (S.asked store.old) (S.asked store.new) e)) }
    ensures reads { OnlyReads S.Store store.old store.new (IsErrOf result FirstError.ReadFault) }
{
    let name = cluster_name(alloc, folder, line.cluster)?;
    let bytes = read_needed(alloc, name.as_str(), store)?;
    match read_cluster(alloc, line, bytes.as_slice())? {
        None => Err(FirstError::First(FirstFile::Cluster(line.cluster))),
        Some(entries) => Ok(entries),
    }
}

/// The machine and the table where a cluster that it needs has come: its lines stand in the report
/// before its entries run.
fn arrive(
    alloc: Global,
    table: &mut Table,
    machine: &mut Machine,
    place: usize,
    cluster: u32,
    entries: Entries,
) -> Result<(), AllocError>
    requires { place < length table.old.loaded }
    ensures table { OnOk result (table.new ≡ with_entries table.old place entries) }
    ensures machine { OnOk result (machine.new ≡ with_arrival machine.old cluster) }
{
    push_arrival(alloc, &mut machine.report, cluster)?;
    table.loaded.set(place, Some(entries));
    Ok(())
}

/// Reads the file of the cluster that a machine needs.
fn load<S: Store>(
    alloc: Global,
    table: &mut Table,
    machine: &mut Machine,
    place: usize,
    folder: &str,
    store: &mut S,
) -> Result<(), FirstError>
    requires sound { IsSound table.old }
    requires needs { NeedsNext table.old machine.old place }
    ensures more { OnOk result (OneMore table.old table.new) }
    ensures loads { OnOk result (ForSome (S.files store.old) (λ files.
        Loads files folder.now table.old table.new machine.old machine.new
        (S.asked store.old) (S.asked store.new))) }
    ensures refused { IfErr result (λ e. ForSome (S.files store.old) (λ files.
        ErrorMeets (site_left files folder.now table.old machine.old)
        (S.asked store.old) (S.asked store.new) e)) }
    ensures reads { OnlyReads S.Store store.old store.new (IsErrOf result FirstError.ReadFault) }
{
    let line = &table.manifest.clusters.as_slice()[place];
    let cluster = line.cluster;
    let entries = fetch(alloc, line, folder, store)?;
    arrive(alloc, table, machine, place, cluster, entries)?;
    Ok(())
}

/// The report with its last line, and the end.
fn finish(
    alloc: Global,
    report: Text,
    word: &[u8],
    steps: u64,
    end: End,
) -> Result<Outcome, FirstError>
    ensures outcome { IfOk result (λ o.
        (o.report ≡ report ++ numbered_line word.now steps) × (o.end ≡ end)) }
    ensures memory { IfErr result (λ e. e ≡ FirstError.OutOfMemory) }
{
    let mut report = report;
    push_numbered(alloc, &mut report, word, steps)?;
    Ok(Outcome { report, end })
}

/// Runs a machine to its end; the files of clusters are read as they come.
fn run_site<S: Store>(
    alloc: Global,
    table: Table,
    machine: Machine,
    folder: &str,
    store: &mut S,
) -> Result<Outcome, FirstError>
    requires sound { IsSound table }
    ensures meets { ForSome (S.files store.old) (λ files. SiteAgrees files folder.now table →
        Meets (site_left files folder.now table machine)
        (S.asked store.old) (S.asked store.new) result) }
    ensures reads { OnlyReads S.Store store.old store.new (IsErrOf result FirstError.ReadFault) }
{
    let mut table = table;
    let mut machine = machine;
    'clusters: loop {
        match machine.run(&table)? {
            Halt::Ended => {
                let Machine { report, clock, .. } = machine;
                return finish(alloc, report, b"end ended", clock.steps, End::Ended);
            }
            Halt::OutOfSteps => {
                let Machine { report, clock, .. } = machine;
                return finish(
                    alloc,
                    report,
                    b"end out-of-steps",
                    clock.steps,
                    End::OutOfSteps,
                );
            }
            Halt::Needs(place) => load(alloc, &mut table, &mut machine, place, folder, store)?,
        }
    }
}

/// The machine of a script that begins.
fn start(alloc: Global, items: &[FirstItem], clock: Clock) -> Result<Machine, AllocError>
    ensures { IfOk result (λ machine. machine ≡ begun (statements_of items.now) clock) }
{
    let code = Code::new(alloc, statements_of(alloc, items)?)?;
    Ok(Machine {
        place: Continuation {
            rest: Rest::new(code),
            depth: 0,
        },
        frames: Items::new(alloc),
        clock,
        report: Text::new(alloc),
    })
}

/// Runs the script of a site, of whose clusters none is here.
fn run_script<S: Store>(
    alloc: Global,
    manifest: Manifest,
    items: &[FirstItem],
    folder: &str,
    steps: u64,
    store: &mut S,
) -> Result<Outcome, FirstError>
    requires form { IsManifest manifest }
    requires fits { Fits manifest items.now }
    ensures meets { ForSome (S.files store.old) (λ files.
        Meets (for_script files folder.now steps manifest (Some items.now))
        (S.asked store.old) (S.asked store.new) result) }
    ensures reads { OnlyReads S.Store store.old store.new (IsErrOf result FirstError.ReadFault) }
{
    let Some(clock) = Clock::begin(steps) else {
        return finish(
            alloc,
            Text::new(alloc),
            b"end out-of-steps",
            0,
            End::OutOfSteps,
        );
    };
    let table = table_of(alloc, manifest, items)?;
    let machine = start(alloc, items, clock)?;
    run_site(alloc, table, machine, folder, store)
}

/// The name of the script's file.
fn script_name(alloc: Global, folder: &str) -> Result<String, AllocError>
    ensures { IfOk result (λ name. string_bytes name ≡ script_name folder.now) }
{
    format!(in alloc; "{folder}/s1.js")
}

/// Reads and runs the script of a manifest.
fn play_script<S: Store>(
    alloc: Global,
    manifest: Manifest,
    folder: &str,
    steps: u64,
    store: &mut S,
) -> Result<Outcome, FirstError>
    requires form { IsManifest manifest }
    ensures meets { ForSome (S.files store.old) (λ files.
        Meets (for_manifest files folder.now steps (Some manifest))
        (S.asked store.old) (S.asked store.new) result) }
    ensures reads { OnlyReads S.Store store.old store.new (IsErrOf result FirstError.ReadFault) }
{
    let name = script_name(alloc, folder)?;
    let bytes = read_needed(alloc, name.as_str(), store)?;
    match read_script(alloc, &manifest, bytes.as_slice())? {
        None => Err(FirstError::First(FirstFile::Script)),
        Some(items) => run_script(alloc, manifest, items.as_slice(), folder, steps, store),
    }
}

/// The name of the manifest's file.
fn manifest_name(alloc: Global, folder: &str) -> Result<String, AllocError>
    ensures { IfOk result (λ name. string_bytes name ≡ manifest_name folder.now) }
{
    format!(in alloc; "{folder}/site.txt")
}

/// Reads the manifest of a folder, and plays its site.
fn play_folder<S: Store>(
    alloc: Global,
    folder: &str,
    steps: u64,
    store: &mut S,
) -> Result<Outcome, FirstError>
    ensures meets { ForSome (S.files store.old) (λ files.
        Meets (for_folder files folder.now steps)
        (S.asked store.old) (S.asked store.new) result) }
    ensures reads { OnlyReads S.Store store.old store.new (IsErrOf result FirstError.ReadFault) }
{
    let name = manifest_name(alloc, folder)?;
    let bytes = read_needed(alloc, name.as_str(), store)?;
    match read_manifest(alloc, bytes.as_slice())? {
        None => Err(FirstError::First(FirstFile::Manifest)),
        Some(manifest) => play_script(alloc, manifest, folder, steps, store),
    }
}

/// Plays the site of a folder of the store for a page's bytes, under a budget of steps.
///
/// Where the store's files are told, the result is the one of `played`, and the names asked of the
/// store are its names, in its order: all of them where there is an outcome or a file is refused or
/// missing, a front of them after a fault or want of memory. Where they put back to a script, the
/// report shows that script's host calls and uncaught exceptions, and waits for each cluster where
/// that script first enters one of its functions.
pub fn play_first<S: Store>(
    alloc: Global,
    page: &[u8],
    folder: &str,
    steps: u64,
    store: &mut S,
) -> Result<Outcome, FirstError>
    ensures meets { ForSome (S.files store.old) (λ files.
        Meets (played files folder.now page.now steps)
        (S.asked store.old) (S.asked store.new) result) }
    ensures headline { ForSome (S.files store.old) (λ files.
        (script : Script) → PutsBackTo files folder.now script
        → IfOk result (λ o. ShowsOriginal o.report o.end script steps)) }
    ensures laziness { ForSome (S.files store.old) (λ files.
        (script : Script) (back : PutsBackTo files folder.now script)
        → IfOk result (λ o. ShowsLoads back.manifest o.report o.end script steps)) }
    ensures reads { OnlyReads S.Store store.old store.new (IsErrOf result FirstError.ReadFault) }
{
    if !is_page(page) {
        return Err(FirstError::First(FirstFile::Page));
    }
    play_folder(alloc, folder, steps, store)
}

/// Reads a page of the store, and plays the site of a folder for it.
///
/// Its promises are those of `play_first`, where the page's file is the first that is needed.
pub fn play_page<S: Store>(
    alloc: Global,
    page: &str,
    folder: &str,
    steps: u64,
    store: &mut S,
) -> Result<Outcome, FirstError>
    ensures meets { ForSome (S.files store.old) (λ files.
        Meets (played_page files folder.now page.now steps)
        (S.asked store.old) (S.asked store.new) result) }
    ensures headline { ForSome (S.files store.old) (λ files.
        (script : Script) → PutsBackTo files folder.now script
        → IfOk result (λ o. ShowsOriginal o.report o.end script steps)) }
    ensures laziness { ForSome (S.files store.old) (λ files.
        (script : Script) (back : PutsBackTo files folder.now script)
        → IfOk result (λ o. ShowsLoads back.manifest o.report o.end script steps)) }
    ensures reads { OnlyReads S.Store store.old store.new (IsErrOf result FirstError.ReadFault) }
{
    let bytes = read_needed(alloc, page, store)?;
    play_first(alloc, bytes.as_slice(), folder, steps, store)
}
