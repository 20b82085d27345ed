// The edit: three words of one stream, set on a sheet that is lent for writing. What it answers and leaves is given by the definitions of the
// crate `edits`.
#![tactic(auto)]

ghost use Rattle.std.specs.Prelude.{◌≡◌, OnOk};
ghost use Rattle.model.specs.Sheet.{Valid};
ghost use Rattle.edits.specs.Edit.{edit_of, edit_answer, edit_sheet, OthersKept};
ghost use Rattle.refusals.specs.Numbers.{checked};

use refusals::{Refusal, refuse_if};

// What is refused, in its order; success otherwise.
fn check_edit(
    sheet: &[u32],
    own_node: u32,
    node: u32,
    stream: u32,
    period: u32,
    deadline: u32,
    jitter: u32,
) -> Result<(), Refusal>
    ensures { checked result ≡ edit_answer sheet.now (edit_of own_node node stream period deadline jitter) }
{
    asked::check_asked(sheet, node, stream)?;
    refuse_if(node != own_node, Refusal::Foreign { node, stream })?;
    let wrong = range::times_outside(period, deadline, jitter);
    refuse_if(wrong, Refusal::Times { node, stream })
}

// "The recorder is a guest on the owner's sheet": sets the period, the deadline and the jitter of a stream of our own node, and no other word.
// Refusals 1 to 5, 8, 13, 5. The sheet after a success is valid, and whatever the answer, the one-stream answers on all other nodes are as
// they were.
pub fn edit_stream(
    sheet: &mut [u32],
    own_node: u32,
    node: u32,
    stream: u32,
    period: u32,
    deadline: u32,
    jitter: u32,
) -> Result<(), Refusal>
    ensures answer { checked result ≡ edit_answer sheet.old (edit_of own_node node stream period deadline jitter) }
    ensures sheet { sheet.new ≡ edit_sheet sheet.old (edit_of own_node node stream period deadline jitter) }
    ensures valid { OnOk result (Valid sheet.new) }
    ensures others { OthersKept sheet.old sheet.new own_node }
{
    check_edit(sheet, own_node, node, stream, period, deadline, jitter)?;
    let at = bodies::place_in_body(layout::place_of(sheet, node), stream);
    fill::put_stream(period, deadline, jitter, &mut sheet[at..]);
    Ok(())
}
