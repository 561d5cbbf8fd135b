// Input read into a lent buffer, by the programs.
ghost use Rattle.std.specs.Prelude.{◌≤◌, IfOk, length};

use std::io::{self, Read};

// Reads until the room is full or the input ends, and answers how many bytes stand at its start.
pub fn fill<R: Read>(reader: &mut R, room: &mut [u8]) -> io::Result<usize>
    ensures { IfOk result (λ many. many ≤ length room.new) }
{
    let mut many = 0;
    while many < room.len() {
        let more = reader.read(&mut room[many..])?;
        if more == 0 {
            break;
        }
        many += more;
    }
    Ok(many)
}
