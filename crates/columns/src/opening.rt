// Opening: named words zeroed, labels written, words beyond them kept.
ghost use Rattle.std.specs.Prelude.{◌≡◌, ◌≤◌, length};
ghost use Rattle.refusal.specs.Refusal.{answer_number};
ghost use Rattle.tree.specs.Plan.{parts_plan};
ghost use Rattle.pieces.specs.Opening.{open_number};
ghost use Rattle.pieces.specs.Writing.{cleared};
ghost use Rattle.columns.specs.Intake.{open_left, setting_of, store_of};

use crate::rooms::{room_number, rooms_of};
use refusal::Refusal;
use tree::plan::Parts;

// The first `many` words become 0.
fn clear(many: usize, buffer: &mut [u64])
    requires { many ≤ length buffer.old }
    ensures { buffer.new ≡ cleared many buffer.old }
{
    buffer[..many].fill(0);
}

// Opens the columns of a plan in parts, whose words are lent. A refusal writes nothing.
pub fn open_parts(
    parts: Parts<'_>,
    constants: &mut [u64],
    copies: &mut [u64],
    scratch: &mut [u64],
    tables: &mut [u64],
) -> Result<(), Refusal>
    ensures value { answer_number result ≡ open_number (setting_of (parts_plan parts.entry)) (store_of constants.old copies.old scratch.old tables.old) }
    ensures tables_after { store_of constants.new copies.new scratch.new tables.new ≡ open_left (parts_plan parts.entry) (store_of constants.old copies.old scratch.old tables.old) }
{
    parts.fault()?;
    let outline = parts.outline;
    room_number(outline, constants, copies, scratch, tables)?;
    labels::fill_labels(outline.trace, outline.copy, copies)?;
    let rooms = rooms_of(outline);
    clear(rooms.tables, tables);
    clear(rooms.scratch, scratch);
    clear(rooms.constants, constants);
    Ok(())
}
