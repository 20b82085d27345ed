// What a piece is run over: the messages that wait, as a log, and then its own releases, with their release numbers.
ghost use Rattle.std.specs.Prelude.{◌≡◌, suc, ◌+◌, ◌*◌, ◌≤◌, ◌++◌, length, take};
ghost use Rattle.theory.specs.Listing.{values_from};
ghost use Rattle.model.specs.Limits.{release_words, max_releases, max_waiting};
ghost use Rattle.model.specs.Protocol.{releases};
ghost use Rattle.pieces.specs.Pieces.{open_log};

use crate::Checkpoint;
use places::{put_numbers, put_waiting};

// Writes the log of those that wait and of the piece's releases into the first words.
pub fn open_log(c: Checkpoint, piece: &[u32], log: &mut [u32])
    requires { (length piece.now ≡ release_words * releases piece.now) × (release_words * (c.waiting + releases piece.now) ≤ length log.old) × (c.waiting ≤ max_waiting) }
    ensures { take (release_words * (c.waiting + releases piece.now)) log.new ≡ open_log c piece.now }
{
    let held = layout::wide(c.waiting);
    put_waiting(&c.ticks, &c.streams, held, log);
    log[2 * held..2 * held + piece.len()].copy_from_slice(piece);
}

// Writes their release numbers into the first words: those of the messages that wait, and then as many after those so far as the piece has
// releases.
pub fn open_numbers(c: Checkpoint, count: usize, numbers: &mut [u32])
    requires { (c.releases + count ≤ max_releases) × (c.waiting + count ≤ max_waiting) × (length numbers.old ≡ max_waiting) }
    ensures { take (c.waiting + count) numbers.new ≡ take c.waiting c.numbers ++ values_from suc c.releases count }
{
    numbers.copy_from_slice(&c.numbers);
    put_numbers(c.releases, layout::wide(c.waiting), count, numbers);
}
