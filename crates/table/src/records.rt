// The records of a table replaced by others.
ghost use Rattle.std.specs.Prelude.{◌≡◌};
ghost use Rattle.table.specs.Records.{room_for, rows_of, refilled};
ghost use Rattle.table.specs.Inner.Places.{Replaceable};

use crate::room_for;

// Other records instead of a table's own, as many as there is room for at most, and zeros in the whole records that are left of its room.
pub fn replace(table: &mut [u8], width: usize, source: &[u8], count: usize)
    requires { Replaceable width table.old source.now count }
    ensures { table.new ≡ refilled width (room_for width table.old) (rows_of width source.now count) table.old }
{
    let room = room_for(table, width);
    let used = width * count;
    words::bytes::copy_front(table, source, used);
    words::bytes::zero(table, used, width * room);
}
