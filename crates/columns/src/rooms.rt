// Lengths: how many words of each buffer a plan names, and 10 for a buffer that is shorter.
ghost use Rattle.std.specs.Prelude.{◌≡◌, List, ℕ};
ghost use Rattle.base.specs.Pick.{pick};
ghost use Rattle.refusal.specs.Refusal.{answer_number};
ghost use Rattle.tree.specs.Plan.{plan_in};
ghost use Rattle.pieces.specs.Opening.{room_to_open};
ghost use Rattle.columns.specs.Intake.{setting_of, store_of};
ghost use Rattle.columns.specs.Rooms.{RoomsOf, Small};

use refusal::Refusal;
use tree::plan::Outline;

// The named words of each buffer.
#[derive(Clone, Copy)]
pub struct Rooms {
    pub constants: usize,
    pub copies: usize,
    pub scratch: usize,
    pub tables: usize,
}

pub(crate) fn rooms_of(outline: Outline) -> Rooms
    requires { Small outline }
    ensures { (gs ns : List ℕ) → RoomsOf (setting_of (plan_in outline gs ns)) result }
{
    let lookup = outline.lookup;
    let tables = if 0 < lookup.mode() {
        (lookup.lookup_width() + 1) * outline.trace
    } else {
        0
    };
    Rooms {
        constants: ((outline.told.constants + outline.specialised) * outline.trace) as usize,
        copies: (outline.copy * outline.trace) as usize,
        scratch: (2 * outline.variables) as usize,
        tables: tables as usize,
    }
}

// Refuses buffers of which one is too short to be opened.
pub(crate) fn room_number(
    outline: Outline,
    constants: &[u64],
    copies: &[u64],
    scratch: &[u64],
    tables: &[u64],
) -> Result<(), Refusal>
    requires { Small outline }
    ensures { (gs ns : List ℕ) → answer_number result ≡ pick (room_to_open (setting_of (plan_in outline gs ns)) (store_of constants.now copies.now scratch.now tables.now)) 0 10 }
{
    let rooms = rooms_of(outline);
    if constants.len() < rooms.constants
        || copies.len() < rooms.copies
        || scratch.len() < rooms.scratch
        || tables.len() < rooms.tables
    {
        return Err(Refusal::ShortBuffer);
    }
    Ok(())
}
