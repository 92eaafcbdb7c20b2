//! Reads a script from standard input, cuts it into tokens, and tells how many there are.
//! `bench/lex.sh` runs it on large texts, to see that the time grows with the text and no faster.
#![tactic(auto)]

use dl_text::text_of;
use js_lexer::lex;
use std::alloc::Global;
use std::io;
use std::io::Read;

/// The bytes that `lex` may be given.
const LIMIT: usize = 0xffff_ffff;

/// What is told of the bytes.
enum Outcome {
    Tokens(usize),
    Refused,
}

fn count(alloc: Global, bytes: &[u8]) -> Outcome {
    let Ok(text) = text_of(alloc, bytes) else {
        return Outcome::Refused;
    };
    if text.len() >= LIMIT {
        return Outcome::Refused;
    }
    match lex(alloc, text.as_str()) {
        Ok(tokens) => Outcome::Tokens(tokens.len()),
        Err(_) => Outcome::Refused,
    }
}

fn main(rt: HostRuntime) -> io::Result<()> {
    let alloc = rt.alloc();
    let mut bytes = Vec::new(alloc);
    rt.stdin().read_to_end(&mut bytes)?;
    match count(alloc, bytes.as_slice()) {
        Outcome::Tokens(tokens) => println!(rt; "{tokens} tokens"),
        Outcome::Refused => println!(rt; "refused"),
    }
}
