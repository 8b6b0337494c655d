// Reads a sheet on standard input, until its end or 32,769 bytes, and writes its report on standard output. A text of 32,769 bytes is too long, and
// what follows is not read.
#![tactic(auto)]

ghost use Rattle.std.specs.Prelude.{◌≡◌, length, take, IfSome, OnOk};
ghost use Rattle.report.specs.Gains.{GainsReport};

use std::io;
use std::io::{Read, Write};

// Writes the report on a text.
fn write_report<W: Write>(text: &[u8], out: &mut [u8], output: &mut W) -> io::Result<()>
    ensures { OnOk result (length out.old ≡ 524288 → GainsReport text.now (W.contents output.old) (W.contents output.new)) }
{
    match reports::report(text, out) {
        Ok(size) => output.write_all(&out[..size]),
        Err(_) => Ok(()), // not for a slice of 524,288 bytes
    }
}

// Reads a text, and writes its report.
fn answer<R: Read, W: Write>(
    input: &mut R,
    text: &mut [u8],
    out: &mut [u8],
    output: &mut W,
) -> io::Result<()>
    ensures { OnOk result (IfSome (R.remaining input.old) (λ sheet. length text.old ≡ 32769 → length out.old ≡ 524288
        → GainsReport (take 32769 sheet) (W.contents output.old) (W.contents output.new))) }
{
    let size = inputs::read_full(input, text)?;
    write_report(&text[..size], out, output)
}

// Room for any report.
fn report_room() -> [u8; 524288]
    ensures { 524288 ≡ length result }
{
    [0; 524288]
}

fn main(rt: HostRuntime) -> io::Result<()> {
    let mut text = [0u8; 32769];
    let mut out = report_room();
    answer(&mut rt.stdin(), &mut text, &mut out, &mut rt.stdout())
}
