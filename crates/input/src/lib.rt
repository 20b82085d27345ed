// What the programs read: bytes, and bytes to words. The library itself takes words.
#![tactic(auto)]

ghost use Rattle.std.specs.Prelude.{◌≡◌, ◌%◌, length, take};
ghost use Rattle.model.specs.Limits.{longest_sheet, longest_replay_input};
ghost use Rattle.model.specs.Sheet.{Valid};
ghost use Rattle.std.specs.Counts.{IsPrefixLen};
ghost use Rattle.input.specs.Input.{word_bytes, all_words, Loaded};

use std::io::Read;

// Words of the longest sheet.
pub const SHEET_WORDS: usize = 819;

// Words of the replay program's longest second file: the horizon and the longest log.
pub const SECOND_WORDS: usize = 8193;

// Bytes to read of a sheet: one more than the longest has, so that a longer one is seen as such.
pub const SHEET_BYTES: usize = 4 * SHEET_WORDS + 1;

// Bytes to read of a second file, likewise.
pub const SECOND_BYTES: usize = 4 * SECOND_WORDS + 1;

// Reads until the buffer is full, the input ends or a read fails, and answers how many bytes now stand at its start.
pub fn read_full<R: Read>(from: &mut R, bytes: &mut [u8]) -> usize
    ensures { IsPrefixLen result bytes.new }
{
    let mut done = 0;
    // Kept: a `while`, since a turn goes on by as many bytes as a read gave.
    while done < bytes.len() {
        match from.read(&mut bytes[done..]) {
            Ok(0) | Err(_) => break,
            Ok(count) => done += count,
        }
    }
    done
}

// Puts the words of the bytes at the start of `words` and answers how many there are: none where the bytes are no whole number
// of words, or more than `words` can hold.
fn load(bytes: &[u8], words: &mut [u32]) -> usize
    ensures { Loaded (length words.old) bytes.now words.old words.new result }
{
    let (chunks, rest) = bytes.as_chunks::<4>();
    if !rest.is_empty() || words.len() < chunks.len() {
        return 0;
    }
    for (i, chunk) in chunks.iter().enumerate() {
        words[i] = u32::from_le_bytes(*chunk);
    }
    chunks.len()
}

// Kept: `load_sheet` and `load_second` are two, since one for a table of any size would be no plainer: its clause `valid` would go by cases of the
// size, and each now holds its constant to the limit that it names.
// The words of a sheet. The limit turns no valid sheet away.
pub fn load_sheet(bytes: &[u8], words: &mut [u32; SHEET_WORDS]) -> usize
    ensures loaded { Loaded longest_sheet bytes.now words.old words.new result }
    ensures valid { length bytes.now % word_bytes ≡ 0 → Valid (all_words bytes.now) → take result words.new ≡ all_words bytes.now }
{
    load(bytes, words)
}

// The words of the replay program's second file: the horizon, and then the log.
pub fn load_second(bytes: &[u8], words: &mut [u32; SECOND_WORDS]) -> usize
    ensures { Loaded longest_replay_input bytes.now words.old words.new result }
{
    load(bytes, words)
}
