// The replay program: reads a sheet from the file that its first argument names, and a horizon and then a log from the second, and
// writes the begin tick of each release, or the refusal. What it writes is given by a definition, up to the call that writes it.
#![tactic(auto)]

ghost use Rattle.std.specs.Prelude.{◌≡◌, ◌*◌, ◌≤◌, length, take};
ghost use Rattle.model.specs.Limits.{release_words, max_releases, longest_sheet, longest_replay_input};
ghost use Rattle.std.specs.Counts.{IsPrefixLen};
ghost use Rattle.input.specs.Input.{read_bytes};
ghost use Rattle.texts.specs.Longest.{longest_replay_text};
ghost use Rattle.replay.specs.Output.{replayed_text, answer_text, output};

use input::{SECOND_BYTES, SECOND_WORDS, SHEET_BYTES, SHEET_WORDS};
use refusals::answer_of;
use std::env::Env;
use std::fs::{File, Files};
use std::io::Print;
use std::str;

// Bytes of the longest text: 14 for the head, 16 a release for 4,096 releases, and 33 for the line under them.
const TEXT_BYTES: usize = 65583;

// Bytes that Linux takes of a path, with the zero at its end.
const PATH_BYTES: usize = 4096;

// Reads the file of that name: nothing where it is missing, or cannot be opened or read. A name that is no UTF-8 text opens nothing.
fn read_named<R: Files>(rt: &R, name: &[u8], bytes: &mut [u8]) -> usize
    ensures { IsPrefixLen result bytes.new }
{
    let Ok(path) = str::from_utf8(name) else {
        return 0;
    };
    let Ok(mut file) = File::open(rt, path) else {
        return 0;
    };
    input::read_full(&mut file, bytes)
}

// Reads the file that argument i names: nothing where there is no such argument.
fn read_file<R: Env + Files>(rt: &R, i: usize, bytes: &mut [u8]) -> usize
    ensures { IsPrefixLen result bytes.new }
{
    let mut name = [0u8; PATH_BYTES];
    let Ok(length) = rt.arg(i, &mut name) else {
        return 0;
    };
    read_named(rt, &name[..length], bytes)
}

// Kept: two functions for the two files, since one for any argument would be no plainer: it would ask for a buffer by cases of the argument, and each
// now asks by its own limit's name.
// Reads the sheet, to one byte past the longest.
fn read_sheet<R: Env + Files>(rt: &R, bytes: &mut [u8]) -> usize
    requires { length bytes.old ≡ read_bytes longest_sheet }
    ensures { IsPrefixLen result bytes.new }
{
    read_file(rt, 1, bytes)
}

// Reads the second file, to one byte past the longest.
fn read_second<R: Env + Files>(rt: &R, bytes: &mut [u8]) -> usize
    requires { length bytes.old ≡ read_bytes longest_replay_input }
    ensures { IsPrefixLen result bytes.new }
{
    read_file(rt, 2, bytes)
}

// The text for a sheet, a log and a horizon.
fn put_replay(sheet: &[u32], log: &[u32], horizon: u32, text: &mut [u8]) -> usize
    requires { (length log.now ≤ release_words * max_releases) × (length text.old ≡ longest_replay_text) }
    ensures counts { IsPrefixLen result text.new }
    ensures text { take result text.new ≡ replayed_text sheet.now log.now horizon }
{
    let mut room = [0u32; 4096];
    let answer = answer_of(bus::replay(sheet, log, horizon, &mut room));
    let count = log.len() / 2;
    report::replay_text(text, &room, count as u32, answer)
}

// The text for a sheet and the words of the second file. A file with no words is handed on as a log of odd length, which is refusal 9
// at 0 0 after 1 to 5.
fn put_answer(sheet: &[u32], second: &[u32], text: &mut [u8]) -> usize
    requires { (length second.now ≤ longest_replay_input) × (length text.old ≡ longest_replay_text) }
    ensures counts { IsPrefixLen result text.new }
    ensures text { take result text.new ≡ answer_text sheet.now second.now }
{
    match second {
        [] => put_replay(sheet, &[0], 0, text),
        [horizon, log @ ..] => put_replay(sheet, log, *horizon, text),
    }
}

// The text for the bytes of the two files.
fn put_output(sheet: &[u8], second: &[u8], text: &mut [u8]) -> usize
    requires { length text.old ≡ longest_replay_text }
    ensures counts { IsPrefixLen result text.new }
    ensures text { take result text.new ≡ output sheet.now second.now }
{
    let mut words = [0u32; SHEET_WORDS];
    let n = input::load_sheet(sheet, &mut words);
    let mut more = [0u32; SECOND_WORDS];
    let m = input::load_second(second, &mut more);
    put_answer(&words[..n], &more[..m], text)
}

// Reads the two files, and writes their text in one call. The exit status is 0 always, also where that fails.
fn main(rt: HostRuntime) {
    let mut bytes = [0u8; SHEET_BYTES];
    let got = read_sheet(&rt, &mut bytes);
    let mut more = [0u8; SECOND_BYTES];
    let second = read_second(&rt, &mut more);
    let mut text = [0u8; TEXT_BYTES];
    let n = put_output(&bytes[..got], &more[..second], &mut text);
    let _ = rt.write_all(&text[..n]);
}
