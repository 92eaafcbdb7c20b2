//! Reads a script from standard input, cuts it into tokens, parses these within the limits of a
//! source script, and tells what was answered. The seconds that each took go to standard error.
//! `bench/parse.sh` runs it on large texts and on hostile ones, to see that the time grows with the
//! text and no faster.
#![tactic(auto)]

mod faults;

ghost use Rattle.std.specs.Prelude.{◌<◌, ◌-◌, ◌^◌, length};

use crate::faults::{lex_fault, parse_fault, text_fault};
use dl_text::text_of;
use js_lexer::lex;
use js_parser::{Form, Limits, parse};
use js_tree::{LAST_FUNCTION_NUMBER, Script};
use std::alloc::Global;
use std::io;
use std::io::Read;
use std::time::{Clock, Instant};

/// The bytes that `lex` may be given.
const LIMIT: usize = 0xffff_ffff;

/// The limits of a script as a team writes it, which is the only one.
const SOURCE: Limits = Limits {
    depth: 400,
    nesting: 64,
    brackets: 400,
    functions: LAST_FUNCTION_NUMBER,
};

/// Tells the seconds since then.
fn tell(rt: &(impl Clock + Eprint), what: &str, since: Instant) -> io::Result<()> {
    let spent = since.elapsed(rt)?;
    let seconds = spent.as_secs();
    let micros = spent.subsec_micros();
    eprintln!(rt; "{what} {seconds}.{micros:06}")
}

fn let_go(_script: Script) {}

/// What is answered of a text.
#[tactic(auto, using(js_parser::proofs::ClosedTokens::closed))]
fn answer(rt: &(impl Clock + Eprint), alloc: Global, text: &str) -> io::Result<String>
    requires { length text.now < 2 ^ 32 - 1 }
{
    let start = Instant::now(rt)?;
    let lexed = lex(alloc, text);
    tell(rt, "lexing", start)?;
    let tokens = match lexed {
        Ok(tokens) => tokens,
        Err(error) => return Ok(lex_fault(alloc, error)?),
    };
    let start = Instant::now(rt)?;
    let parsed = parse(alloc, &tokens, &SOURCE, Form::Source);
    tell(rt, "parsing", start)?;
    match parsed {
        Ok(script) => {
            let start = Instant::now(rt)?;
            let_go(script);
            tell(rt, "dropping", start)?;
            Ok(String::from_str(alloc, "accepted")?)
        }
        Err(error) => Ok(parse_fault(alloc, error)?),
    }
}

/// What is answered of the bytes of a script.
fn answer_of_bytes(rt: &(impl Clock + Eprint), alloc: Global, bytes: &[u8]) -> io::Result<String> {
    match text_of(alloc, bytes) {
        Ok(text) => {
            if text.len() >= LIMIT {
                return Ok(String::from_str(alloc, "TooLong")?);
            }
            answer(rt, alloc, text.as_str())
        }
        Err(error) => Ok(text_fault(alloc, error)?),
    }
}

fn main(rt: HostRuntime) -> io::Result<()> {
    let alloc = rt.alloc();
    let mut bytes = Vec::new(alloc);
    rt.stdin().read_to_end(&mut bytes)?;
    let answer = answer_of_bytes(&rt, alloc, &bytes)?;
    println!(rt; "{answer}")
}
