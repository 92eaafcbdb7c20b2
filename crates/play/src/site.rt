ghost use Rattle.std.specs.Prelude.{◌≡◌, ◌+◌, ◌≤◌, [], List, ℕ, Some, None, true, false, length, map, IfOk, OnOk, IfSome, MatchOption, MatchBool, nat_eq, drop, replicate, slice_get};
ghost use Rattle.std.specs.List.{list_any};
ghost use Rattle.play.specs.Site.{Fits, OnlyListed, line_of, with_stub, with_plain, numbered, read_script_file, site_tree};
ghost use Rattle.play.specs.Program.{declared};
ghost use Rattle.play.specs.Machine.{func_of, NamesAre, StubIs, BodyIs, BodiesAre};
ghost use Rattle.play.specs.Tables.{Builds, statements_of};
ghost use Rattle.play.specs.Manifest.{IsManifest};

use crate::code::Code;
use crate::manifest::Manifest;
use crate::table::{Body, EntryPlace, Function, Functions, FunctionsByLetter, Loaded, Table};
use dl_text::TryCopy;
use first_grammar::{
    FirstBody, FirstFunction, FirstItem, FirstItems, FirstStatement, FirstStatements,
    read_first_script,
};
use sqlite_items::Items;
use std::alloc::{AllocError, Global};

/// The place of a number in a list.
fn place_in(numbers: &[u32], number: u32) -> Option<usize>
    ensures { MatchOption result
        (list_any (nat_eq number) numbers.now ≡ false)
        (λ place. (slice_get numbers.now place ≡ Some number)
        × (list_any (nat_eq number) numbers.now ≡ true)) }
{
    for (place, other) in numbers.iter().enumerate() {
        if number == *other {
            return Some(place);
        }
    }
    None
}

/// Where an entry stands in a manifest.
fn place_of(manifest: &Manifest, number: u32) -> Option<EntryPlace>
    ensures { MatchOption result
        (line_of manifest.now.clusters number ≡ None)
        (StubIs manifest.now number) }
{
    for (cluster, line) in manifest.clusters.as_slice().iter().enumerate() {
        if let Some(entry) = place_in(line.entries.as_slice(), number) {
            return Some(EntryPlace { cluster, entry });
        }
    }
    None
}

/// Whether every stub is that of an entry, and there are as many plain functions as the manifest
/// has numbers for.
fn fits(manifest: &Manifest, items: &[FirstItem]) -> bool
    ensures { MatchBool result
        (Fits manifest.now items.now)
        (Fits manifest.now items.now → ⊥) }
{
    let mut plain = 0usize;
    for item in items {
        match item {
            FirstItem::Statement(_) => {}
            FirstItem::Function(function) => match &function.body {
                FirstBody::Statements(_) => plain += 1,
                FirstBody::Stub(number) => {
                    if place_of(manifest, *number).is_none() {
                        return false;
                    }
                }
            },
        }
    }
    plain == manifest.plain.len()
}

/// The script of a file, where it is one of the manifest's.
pub fn read_script(
    alloc: Global,
    manifest: &Manifest,
    bytes: &[u8],
) -> Result<Option<FirstItems>, AllocError>
    ensures reads { IfOk result (λ items. items ≡ read_script_file manifest.now bytes.now) }
    ensures fits { IfOk result (λ items. IfSome items (Fits manifest.now)) }
{
    if bytes.len() != manifest.script_bytes as usize {
        return Ok(None);
    }
    let Some(script) = read_first_script(alloc, bytes)? else {
        return Ok(None);
    };
    if fits(manifest, script.items.as_slice()) {
        Ok(Some(script.items))
    } else {
        Ok(None)
    }
}

fn copy_statement(alloc: Global, statement: &FirstStatement) -> Result<FirstStatement, AllocError>
    ensures { IfOk result (λ copy. copy ≡ statement.now) }
{
    match statement {
        FirstStatement::Call(letter) => Ok(FirstStatement::Call(*letter)),
        FirstStatement::Out(text) => Ok(FirstStatement::Out(text.copy(alloc)?)),
    }
}

fn copy_statements(
    alloc: Global,
    statements: &[FirstStatement],
) -> Result<FirstStatements, AllocError>
    ensures { IfOk result (λ copy. copy ≡ statements.now) }
{
    let mut copy = Items::new(alloc);
    for statement in statements {
        copy.push(copy_statement(alloc, statement)?)?;
    }
    Ok(copy)
}

/// The statements of a script, without its functions.
pub fn statements_of(alloc: Global, items: &[FirstItem]) -> Result<FirstStatements, AllocError>
    ensures { IfOk result (λ statements. statements ≡ statements_of items.now) }
{
    let mut statements = Items::new(alloc);
    for item in items {
        if let FirstItem::Statement(statement) = item {
            statements.push(copy_statement(alloc, statement)?)?;
        }
    }
    Ok(statements)
}

/// A function of the script: a plain one has the next number of the manifest, a stub that of its
/// entry.
fn function_of(
    alloc: Global,
    manifest: &Manifest,
    function: &FirstFunction,
    next: usize,
) -> Result<Function, AllocError>
    requires form { IsManifest manifest.now }
    requires plain { next + with_plain function.now.body 0 ≤ length manifest.now.plain }
    requires listed { OnlyListed manifest.now.clusters (with_stub function.now.body []) }
    ensures is { IfOk result (λ f. func_of f
        ≡ numbered (drop next manifest.now.plain) function.now.name function.now.body) }
    ensures body { IfOk result (λ f. BodyIs manifest.now f.number f.body) }
{
    match &function.body {
        FirstBody::Statements(statements) => {
            let number = manifest.plain.as_slice()[next];
            let code = Code::new(alloc, copy_statements(alloc, statements.as_slice())?)?;
            Ok(Function {
                number,
                name: function.name,
                body: Body::Statements(code),
            })
        }
        FirstBody::Stub(number) => match place_of(manifest, *number) {
            None => unreachable!(),
            Some(place) => Ok(Function {
                number: *number,
                name: function.name,
                body: Body::Stub(place),
            }),
        },
    }
}

/// The functions of a script, in the order of the text.
#[tactic(auto, using(crate::proofs::FunctionLemmas::one_more))]
fn functions_of(
    alloc: Global,
    manifest: &Manifest,
    items: &[FirstItem],
) -> Result<Functions, AllocError>
    requires form { IsManifest manifest.now }
    requires fits { Fits manifest.now items.now }
    ensures are { IfOk result (λ fs.
        map func_of fs ≡ declared (site_tree manifest.now.plain items.now)) }
    ensures bodies { IfOk result (BodiesAre manifest.now) }
{
    let mut functions = Items::new(alloc);
    let mut next = 0usize;
    for item in items {
        match item {
            FirstItem::Statement(_) => {}
            FirstItem::Function(function) => {
                functions.push(function_of(alloc, manifest, function, next)?)?;
                match &function.body {
                    FirstBody::Statements(_) => next += 1,
                    FirstBody::Stub(_) => {}
                }
            }
        }
    }
    Ok(functions)
}

/// The bytes that a letter is one of.
const LETTERS: usize = 256;

/// The place of the last function of each letter.
#[tactic(auto, using(crate::proofs::LetterLemmas::names_more))]
fn names_of(alloc: Global, functions: &[Function]) -> Result<FunctionsByLetter, AllocError>
    ensures { IfOk result (NamesAre functions.now) }
{
    let mut names = vec![in alloc; None; LETTERS]?;
    for (place, function) in functions.iter().enumerate() {
        names[usize::from(function.name)] = Some(place);
    }
    Ok(Items::from_vec(names))
}

/// So many clusters, none of which is here.
fn none_loaded(alloc: Global, count: usize) -> Result<Loaded, AllocError>
    ensures { IfOk result (λ loaded. loaded ≡ replicate count None) }
{
    let mut loaded = Items::new(alloc);
    for _cluster in 0..count {
        loaded.push(None)?;
    }
    Ok(loaded)
}

/// The table of a site, before a cluster is here.
pub fn table_of(alloc: Global, manifest: Manifest, items: &[FirstItem]) -> Result<Table, AllocError>
    requires form { IsManifest manifest }
    requires fits { Fits manifest items.now }
    ensures { IfOk result (Builds manifest items.now) }
{
    let functions = functions_of(alloc, &manifest, items)?;
    let names = names_of(alloc, functions.as_slice())?;
    let loaded = none_loaded(alloc, manifest.clusters.len())?;
    Ok(Table {
        manifest,
        functions,
        names,
        loaded,
    })
}
