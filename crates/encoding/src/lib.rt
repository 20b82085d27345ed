// The record of a replay by pieces as a table of words, as a program of another language hands it in and gets it back.
#![tactic(auto)]

ghost use Rattle.std.specs.Prelude.{◌≡◌, ◌+◌, ◌≤◌, length, take, drop};
ghost use Rattle.model.specs.Limits.{max_waiting};
ghost use Rattle.pieces.specs.Pieces.{resume_answer, resume_buffer};
ghost use Rattle.encoding.specs.Words.{checkpoint_in, checkpoint_words, resume_words, run_numbers, ContinuesIn};
ghost use Rattle.refusals.specs.Numbers.{answered};

use model::{Answer, Bus};
use pieces::Checkpoint;
use refusals::Refusal;

// What a piece did whose record stands in a table: how many messages began in it, and the turns so far.
#[derive(Clone, Copy, Debug, PartialEq, Eq)]
pub struct PieceRun {
    pub begun: u32,
    pub turns: u32,
}

// An answer of three numbers, for a piece.
impl From<PieceRun> for Answer {
    ghost from_gives = { λ run answer. answer ≡ run_numbers run };

    fn from(run: PieceRun) -> Answer {
        Answer {
            number: 0,
            second: run.begun,
            third: run.turns,
        }
    }
}

// The table of all waiting places that starts at a place.
fn table_at(words: &[u32], at: usize) -> [u32; 256]
    requires { at + max_waiting ≤ length words.now }
    ensures { result ≡ take max_waiting (drop at words.now) }
{
    let mut table = [0; 256];
    table.copy_from_slice(&words[at..at + 256]);
    table
}

// The record that stands in a table of words.
pub fn checkpoint_in(words: &[u32; 774]) -> Checkpoint
    ensures { result ≡ checkpoint_in words.now }
{
    let bus = Bus {
        tick: words[1],
        node: words[2],
        turns: words[3],
    };
    let numbers = table_at(words, 6);
    let ticks = table_at(words, 262);
    let streams = table_at(words, 518);
    Checkpoint {
        horizon: words[0],
        bus,
        releases: words[4],
        waiting: words[5],
        numbers,
        ticks,
        streams,
    }
}

// Writes a record into a table of words.
pub fn put_checkpoint(c: Checkpoint, words: &mut [u32; 774])
    ensures { words.new ≡ checkpoint_words c }
{
    let header = [
        c.horizon,
        c.bus.tick,
        c.bus.node,
        c.bus.turns,
        c.releases,
        c.waiting,
    ];
    words[..6].copy_from_slice(&header);
    words[6..262].copy_from_slice(&c.numbers);
    words[262..518].copy_from_slice(&c.ticks);
    words[518..].copy_from_slice(&c.streams);
}

// A piece with the record in a table of words, which a refusal leaves as it was. Thin: the piece itself takes the record by value.
pub fn resume_in(
    sheet: &[u32],
    piece: &[u32],
    horizon: u32,
    words: &mut [u32; 774],
    room: &mut [u32],
) -> Result<PieceRun, Refusal>
    ensures answer { answered run_numbers result ≡ resume_answer sheet.now (checkpoint_in words.old) piece.now horizon (length room.old) }
    ensures checkpoint { words.new ≡ resume_words sheet.now words.old piece.now horizon (length room.old) }
    ensures buffer { room.new ≡ resume_buffer sheet.now (checkpoint_in words.old) piece.now horizon room.old }
    ensures whole { ContinuesIn sheet.now words.old piece.now (answered run_numbers result) words.new room.new }
{
    let before = checkpoint_in(words);
    match before.resume(sheet, piece, horizon, room) {
        Ok(resumed) => {
            put_checkpoint(resumed.checkpoint, words);
            Ok(PieceRun {
                begun: resumed.begun,
                turns: resumed.turns,
            })
        }
        Err(refused) => Err(refused.refusal),
    }
}
