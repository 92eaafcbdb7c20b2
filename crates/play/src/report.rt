ghost use Rattle.std.specs.Prelude.{◌≡◌, [], ◌∷◌, ◌++◌, OnOk};
ghost use Rattle.first_grammar.specs.First.{out_name};
ghost use Rattle.play.specs.Value.{ShownObject, ShownText};
ghost use Rattle.play.specs.Report.{CallLine, IdleLine, UncaughtLine, line_text, numbered_line};
ghost use Rattle.play.specs.Machine.{arrived_report};

use dl_text::{Text, push_quoted_unit};
use std::alloc::{AllocError, Global};

/// Adds the line of a host call with a text.
#[tactic(auto, using(crate::proofs::TextLemmas::call_written))]
pub fn push_call(report: &mut Text, text: &Text) -> Result<(), AllocError>
    ensures { OnOk result
        (report.new ≡ report.old ++ line_text (CallLine out_name (ShownText text.now ∷ []))) }
{
    report.extend(b"call out \"")?;
    for byte in text.items() {
        push_quoted_unit(report, u16::from(*byte))?;
    }
    report.extend(b"\"\n")?;
    Ok(())
}

/// Adds the line of an exception that leaves the script: the first object that is passed or shown.
pub fn push_uncaught(report: &mut Text) -> Result<(), AllocError>
    ensures { OnOk result (report.new ≡ report.old ++ line_text (UncaughtLine (ShownObject 1))) }
{
    report.extend(b"uncaught #1\n")?;
    Ok(())
}

/// Adds the line of the end of the scripts.
pub fn push_idle(report: &mut Text) -> Result<(), AllocError>
    ensures { OnOk result (report.new ≡ report.old ++ line_text IdleLine) }
{
    report.extend(b"idle\n")?;
    Ok(())
}

/// Adds a line of a word and a number.
pub fn push_numbered(
    alloc: Global,
    report: &mut Text,
    word: &[u8],
    number: u64,
) -> Result<(), AllocError>
    ensures { OnOk result (report.new ≡ report.old ++ numbered_line word.now number) }
{
    report.extend(word)?;
    let tail = format!(in alloc; " {number}\n")?;
    report.extend(tail.as_bytes())?;
    Ok(())
}

/// Adds the lines of a cluster that is needed and comes at once.
pub fn push_arrival(alloc: Global, report: &mut Text, cluster: u32) -> Result<(), AllocError>
    ensures { OnOk result (report.new ≡ arrived_report report.old cluster) }
{
    let cluster = u64::from(cluster);
    push_numbered(alloc, report, b"wait", cluster)?;
    push_numbered(alloc, report, b"ask", cluster)?;
    push_numbered(alloc, report, b"here", cluster)?;
    Ok(())
}
