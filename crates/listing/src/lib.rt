// The table of an admitted sheet.
#![tactic(auto)]

ghost use Rattle.std.specs.Prelude.{◌≡◌, ◌+◌, ◌≤◌, ◌^◌};
ghost use Rattle.model.specs.Sheet.{nodes, streams_before};
ghost use Rattle.digits.specs.Put.{Adds};
ghost use Rattle.texts.specs.Text.{lines_to, wait_line, node_lines, wait_table};

use digits::Text;
use layout::{stream_count, wide, word_at};

// One line of the table.
fn put_wait(text: &mut Text<'_>, node: u32, stream: u32, wait: u32)
    ensures { Adds text.old (wait_line node stream wait) text.new }
{
    text.put_number(node);
    text.put_labelled(b" ", stream);
    text.put_labelled(b" ", wait);
    text.put(b"\n");
}

// The lines of node k, whose waits start at `from`.
fn put_node(text: &mut Text<'_>, sheet: &[u32], k: u32, waits: &[u32], from: usize)
    requires { (from ≡ streams_before sheet.now k) × (from + 2 ^ 32 ≤ 2 ^ 64) }
    ensures { Adds text.old (node_lines sheet.now waits.now k) text.new }
{
    let count = stream_count(sheet, k);
    for j in 0..count {
        let wait = word_at(waits, from + wide(j));
        put_wait(text, k, j + 1, wait);
    }
}

// The lines of all nodes.
fn put_nodes(text: &mut Text<'_>, sheet: &[u32], waits: &[u32])
    ensures { Adds text.old (lines_to (node_lines sheet.now waits.now) (nodes sheet.now)) text.new }
{
    let n = word_at(sheet, 0);
    let mut from = 0;
    for k in 0..n {
        put_node(text, sheet, k + 1, waits, from);
        from += wide(stream_count(sheet, k + 1));
    }
}

// The whole table.
pub fn put_waits(text: &mut Text<'_>, sheet: &[u32], waits: &[u32], streams: u32)
    ensures { Adds text.old (wait_table sheet.now waits.now streams) text.new }
{
    text.put(b"node stream wait\n");
    put_nodes(text, sheet, waits);
    text.put_labelled(b"admitted ", streams);
    text.put(b"\n");
}
