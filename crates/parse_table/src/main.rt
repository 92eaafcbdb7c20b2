//! Reads a table of texts from standard input and writes what is answered of each: the printed text
//! of its tree, or why it is refused. A line is a word and a text: `source` for a source script,
//! `few` for one that may have one function, `site` for a text of a site. The gate runs it on the
//! table beside it.
#![tactic(auto)]

ghost use Rattle.std.specs.Prelude.{◌<◌, ◌-◌, ◌^◌, length};

use dl_text::{Text, text_of};
use js_lexer::lex;
use js_parser::{Form, Limits, parse};
use js_printer::print_script;
use source_files::{SourceError, SourceRoom};
use std::alloc::Global;
use std::io::Read;
use std::{io, str};

/// The bytes that `lex` may be given.
const LIMIT: usize = 0xffff_ffff;

/// The limits of a text of a site.
const SITE: Limits = Limits {
    depth: 800,
    nesting: 66,
    brackets: 800,
    functions: 196_605,
};

/// The limits of a source script where one function is left for it.
const FEW: Limits = Limits {
    depth: 400,
    nesting: 64,
    brackets: 400,
    functions: 1,
};

/// The printed text of the tree of a text.
#[tactic(auto, using(js_parser::proofs::ClosedTokens::closed))]
fn printed(alloc: Global, limits: &Limits, form: Form, text: &str) -> Result<Text, SourceError>
    requires { length text.now < 2 ^ 32 - 1 }
{
    let tokens = lex(alloc, text)?;
    let script = parse(alloc, &tokens, limits, form)?;
    print_script(alloc, &script).map_err(|_| SourceError::OutOfMemory)
}

/// Writes what is answered of a text.
fn tell(rt: &impl Print, alloc: Global, limits: &Limits, form: Form, text: &str) -> io::Result<()> {
    if text.len() >= LIMIT {
        return Ok(());
    }
    match printed(alloc, limits, form, text) {
        Ok(script) => match str::from_utf8(script.items()) {
            Ok(script) => print!(rt; "{script}"),
            Err(_) => println!(rt; "no text"),
        },
        Err(SourceError::Refused(fault)) => println!(rt; "{fault}"),
        Err(_) => println!(rt; "out of memory"),
    }
}

fn main(rt: HostRuntime) -> io::Result<()> {
    let alloc = rt.alloc();
    let mut bytes = Vec::new(alloc);
    rt.stdin().read_to_end(&mut bytes)?;
    let Ok(table) = text_of(alloc, &bytes) else {
        return println!(rt; "no text");
    };
    for line in table.lines() {
        if let Some(text) = line.strip_prefix("source ") {
            tell(
                &rt,
                alloc,
                &SourceRoom::whole().limits(),
                Form::Source,
                text,
            )?;
        } else if let Some(text) = line.strip_prefix("few ") {
            tell(&rt, alloc, &FEW, Form::Source, text)?;
        } else if let Some(text) = line.strip_prefix("site ") {
            tell(&rt, alloc, &SITE, Form::Written, text)?;
        }
    }
    Ok(())
}
