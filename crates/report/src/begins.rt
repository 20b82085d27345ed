// The table of a replay.
ghost use Rattle.digits.specs.Put.{Adds};
ghost use Rattle.texts.specs.Text.{lines_to, begin_text, begin_line, begin_table};

use digits::Text;
use layout::word_at;

// The word for a release that has not begun.
const NOT_BEGUN: u32 = u32::MAX;

// The rest of a line after the release's number.
fn put_begin(text: &mut Text<'_>, begin: u32)
    ensures { Adds text.old (begin_text begin) text.new }
{
    if begin == NOT_BEGUN {
        text.put(b" -\n");
        return;
    }
    text.put_labelled(b" ", begin);
    text.put(b"\n");
}

// The lines of all releases, counted from 1.
fn put_releases(text: &mut Text<'_>, begins: &[u32], count: u32)
    ensures { Adds text.old (lines_to (begin_line begins.now) count) text.new }
{
    for i in 0..count {
        text.put_number(i + 1);
        put_begin(text, word_at(begins, i as usize));
    }
}

// The whole table.
pub fn put_begins(text: &mut Text<'_>, begins: &[u32], count: u32, turns: u32, tick: u32)
    ensures { Adds text.old (begin_table begins.now count turns tick) text.new }
{
    text.put(b"release begin\n");
    put_releases(text, begins, count);
    text.put_labelled(b"turns ", turns);
    text.put_labelled(b" next ", tick);
    text.put(b"\n");
}
