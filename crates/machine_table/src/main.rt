//! Reads a table of scripts from standard input, runs each on a machine of its own with the host
//! call `out`, and writes what was called and how the run ended, with its steps and its beats; the
//! seconds that it took go to standard error. A line is a budget of steps, a space and a script.
//! The gate runs it on the table beside it, and `bench/machine.sh` on long runs.
#![tactic(auto)]

mod world;

ghost use Rattle.std.specs.Prelude.{◌≡◌, ◌<◌, ◌-◌, ◌^◌, length, IfOk, None};

use dl_text::{Names, quote_units, text_of, units_of};
use js_lexer::lex;
use js_machine::{Halt, Machine};
use js_parser::{Form, parse};
use js_tree::Script;
use js_values::Value;
use source_files::{SourceError, SourceRoom};
use std::alloc::Global;
use std::io;
use std::io::Read;
use std::time::{Clock, Instant};
use world::{Calls, Kept};

/// The bytes that `lex` may be given.
const LIMIT: usize = 0xffff_ffff;

/// The tree of a script.
#[tactic(auto, using(js_parser::proofs::ClosedTokens::closed))]
fn read(alloc: Global, text: &str) -> Result<Script, SourceError>
    requires { length text.now < 2 ^ 32 - 1 }
{
    let tokens = lex(alloc, text)?;
    let limits = SourceRoom::whole().limits();
    Ok(parse(alloc, &tokens, &limits, Form::Source)?)
}

/// A machine without a task. Its whole contract names each object of the start.
fn machine(alloc: Global) -> io::Result<Machine>
    ensures { IfOk result (λ m. m.task ≡ None) }
{
    let mut names = Names::new(alloc);
    names.push(units_of(alloc, "out")?)?;
    Ok(Machine::new(alloc, &names)?)
}

/// Tells the seconds since then.
fn tell_time(rt: &(impl Clock + Eprint), since: Instant) -> io::Result<()> {
    let spent = since.elapsed(rt)?;
    let seconds = spent.as_secs();
    let micros = spent.subsec_micros();
    eprintln!(rt; "{seconds}.{micros:06}")
}

/// How a run ended, in words.
fn ended(alloc: Global, halt: &Halt) -> io::Result<String> {
    Ok(match halt {
        Halt::Ended => String::from_str(alloc, "Ended")?,
        Halt::Uncaught(_) => String::from_str(alloc, "Uncaught")?,
        Halt::OutOfSteps => String::from_str(alloc, "OutOfSteps")?,
        Halt::Stopped(reason) => format!(in alloc; "Stopped {reason}")?,
        Halt::LateFailed => String::from_str(alloc, "LateFailed")?,
        Halt::Unbuilt => String::from_str(alloc, "Unbuilt")?,
    })
}

/// Writes a value of a host call.
fn tell_value(rt: &impl Print, alloc: Global, value: &Value) -> io::Result<()> {
    match value {
        Value::Undefined => print!(rt; " undefined"),
        Value::Null => print!(rt; " null"),
        Value::Bool(b) => print!(rt; " {b}"),
        Value::Num(n) => match n.value() {
            Some(n) => print!(rt; " {n}"),
            None => print!(rt; " NaN"),
        },
        Value::Str(units) => {
            let quoted = quote_units(alloc, units)?;
            match text_of(alloc, quoted.items()) {
                Ok(text) => print!(rt; " {text}"),
                Err(_) => print!(rt; " ?"),
            }
        }
        Value::Object(_) => print!(rt; " object"),
    }
}

/// Writes the host calls of a run, each on a line.
fn tell_calls(rt: &impl Print, alloc: Global, kept: &[Kept]) -> io::Result<()> {
    for asked in kept {
        if let Kept::Call(call) = asked {
            print!(rt; "call out")?;
            for value in call.arguments.as_slice() {
                tell_value(rt, alloc, value)?;
            }
            println!(rt; "")?;
        }
    }
    Ok(())
}

/// Runs a script, and writes how that ended.
fn tell_run(
    rt: &(impl Print + Eprint + Clock),
    alloc: Global,
    budget: u64,
    script: &Script,
) -> io::Result<()> {
    let mut machine = machine(alloc)?;
    let mut world = Calls {
        alloc,
        kept: Vec::new(alloc),
    };
    machine.start(script)?;
    let start = Instant::now(rt)?;
    let halt = machine.run(budget, &mut world)?;
    tell_time(rt, start)?;
    tell_calls(rt, alloc, world.kept.as_slice())?;
    let steps = machine.steps();
    let beats = machine.beats();
    let ended = ended(alloc, &halt)?;
    println!(rt; "{ended} {steps} {beats}")
}

/// Writes what comes of a script.
fn tell(
    rt: &(impl Print + Eprint + Clock),
    alloc: Global,
    budget: u64,
    text: &str,
) -> io::Result<()> {
    if text.len() >= LIMIT {
        return Ok(());
    }
    match read(alloc, text) {
        Ok(script) => tell_run(rt, alloc, budget, &script),
        Err(SourceError::Refused(fault)) => println!(rt; "{fault}"),
        Err(_) => println!(rt; "out of memory"),
    }
}

fn main(rt: HostRuntime) -> io::Result<()> {
    let alloc = rt.alloc();
    let mut bytes = Vec::new(alloc);
    rt.stdin().read_to_end(&mut bytes)?;
    let Ok(table) = text_of(alloc, &bytes) else {
        return println!(rt; "no text");
    };
    for line in table.lines() {
        if let Some((budget, text)) = line.split_once(' ') {
            if let Ok(budget) = budget.parse::<u64>() {
                tell(&rt, alloc, budget, text)?;
            }
        }
    }
    Ok(())
}
