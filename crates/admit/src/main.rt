// The admit program: reads a sheet from standard input and writes the table of listed waits, or the refusal. What it writes is given by
// a definition, up to the call that writes it.
#![tactic(auto)]

ghost use Rattle.std.specs.Prelude.{◌≡◌, length, take};
ghost use Rattle.model.specs.Limits.{longest_sheet};
ghost use Rattle.std.specs.Counts.{IsPrefixLen};
ghost use Rattle.input.specs.Input.{read_bytes};
ghost use Rattle.texts.specs.Longest.{longest_admit_text};
ghost use Rattle.admit.specs.Output.{answer_text, output};

use input::{SHEET_BYTES, SHEET_WORDS};
use refusals::answer_of;
use std::io::{Print, Read};

// Bytes of the longest text: 17 for the head, 17 a stream for 256 streams, and 20 for the line under them.
const TEXT_BYTES: usize = 4389;

// Reads a sheet, to one byte past the longest.
fn read_sheet<R: Read>(from: &mut R, bytes: &mut [u8]) -> usize
    requires { length bytes.old ≡ read_bytes longest_sheet }
    ensures { IsPrefixLen result bytes.new }
{
    input::read_full(from, bytes)
}

// The text for a sheet.
fn put_answer(sheet: &[u32], text: &mut [u8]) -> usize
    requires { length text.old ≡ longest_admit_text }
    ensures counts { IsPrefixLen result text.new }
    ensures text { take result text.new ≡ answer_text sheet.now }
{
    let mut waits = [0u32; 256];
    let answer = answer_of(analysis::admit(sheet, &mut waits));
    report::admit_text(text, sheet, &waits, answer)
}

// The text for an input.
fn put_output(bytes: &[u8], text: &mut [u8]) -> usize
    requires { length text.old ≡ longest_admit_text }
    ensures counts { IsPrefixLen result text.new }
    ensures text { take result text.new ≡ output bytes.now }
{
    let mut words = [0u32; SHEET_WORDS];
    let n = input::load_sheet(bytes, &mut words);
    put_answer(&words[..n], text)
}

// Reads standard input, and writes its text in one call. The exit status is 0 always, also where that fails.
fn main(rt: HostRuntime) {
    let mut bytes = [0u8; SHEET_BYTES];
    let got = read_sheet(&mut rt.stdin(), &mut bytes);
    let mut text = [0u8; TEXT_BYTES];
    let n = put_output(&bytes[..got], &mut text);
    let _ = rt.write_all(&text[..n]);
}
