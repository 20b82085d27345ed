// What the programs write, put into a lent buffer: every byte of it is given by a definition. The programs hand the buffer on to the
// system in one call.
#![tactic(auto)]

ghost use Rattle.std.specs.Prelude.{◌≡◌, ◌≤◌, length, take};
ghost use Rattle.model.specs.Limits.{max_releases};
ghost use Rattle.model.specs.Sheet.{Valid};
ghost use Rattle.digits.specs.Put.{Adds, overwritten, fitting};
ghost use Rattle.texts.specs.Text.{refusal_text, admit_text, replay_text};
ghost use Rattle.texts.specs.Longest.{longest_admit_text, longest_replay_text};

use begins::put_begins;
use digits::Text;
use listing::put_waits;
use model::Answer;

mod begins; // begins.rt: the table of a replay

// "A refusal writes one line only, as `refused 7 at 1 2`."
fn put_refusal(text: &mut Text<'_>, answer: Answer)
    ensures { Adds text.old (refusal_text answer) text.new }
{
    text.put_labelled(b"refused ", answer.number);
    text.put_labelled(b" at ", answer.second);
    text.put_labelled(b" ", answer.third);
    text.put(b"\n");
}

// The admit program's text at the front of the buffer, and its length. A buffer of the longest text's length holds it whole.
// Kept: it is told any three numbers, and not an outcome, as it was and as the text's definition is; an outcome would ask more of a caller.
pub fn admit_text(out: &mut [u8], sheet: &[u32], waits: &[u32], answer: Answer) -> usize
    ensures buffer { out.new ≡ overwritten out.old (admit_text sheet.now waits.now answer) }
    ensures count { result ≡ fitting out.old (admit_text sheet.now waits.now answer) }
    ensures whole { (answer.number ≡ 0 → Valid sheet.now) → longest_admit_text ≤ length out.old → take result out.new ≡ admit_text sheet.now waits.now answer }
{
    let mut text = Text::at_front(out);
    if answer.number == 0 {
        put_waits(&mut text, sheet, waits, answer.second);
        return text.length();
    }
    put_refusal(&mut text, answer);
    text.length()
}

// The replay program's text at the front of the buffer, and its length. A buffer of the longest text's length holds it whole.
// Kept: it is told any three numbers, as the text above.
pub fn replay_text(out: &mut [u8], begins: &[u32], count: u32, answer: Answer) -> usize
    ensures buffer { out.new ≡ overwritten out.old (replay_text begins.now count answer) }
    ensures count { result ≡ fitting out.old (replay_text begins.now count answer) }
    ensures whole { count ≤ max_releases → longest_replay_text ≤ length out.old → take result out.new ≡ replay_text begins.now count answer }
{
    let mut text = Text::at_front(out);
    if answer.number == 0 {
        put_begins(&mut text, begins, count, answer.second, answer.third);
        return text.length();
    }
    put_refusal(&mut text, answer);
    text.length()
}
