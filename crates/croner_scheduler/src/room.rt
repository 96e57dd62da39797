//! How much room is taken for jobs and turns to come, and when that of those that are gone is used again.
ghost use Rattle.std.specs.Prelude.{◌≡◌, ◌<◌, ◌≤◌, ◌⊎◌, vec_len, vec_capacity, OnOk, OnErr, IsTrue, IsFalse};
ghost use Rattle.croner_scheduler.specs.Room.{row_room, FewGone};

use std::alloc::AllocError;

// Those that are gone are taken out where there is no room for one more, if an eighth of all is gone.
const GONE_PART: usize = 8;

// Else room is taken for a sixteenth besides.
const ROOM_PART: usize = 16;

// And for so many besides, so that some room is taken where there are few.
const LEAST_ROOM: usize = 4;

// Of `len`, with room for `capacity`, these are `left`: whether the others, which are gone, are to be taken out.
pub(crate) fn has_many_gone(len: usize, capacity: usize, left: usize) -> bool
    ensures full { IsTrue result → capacity ≤ len }
    ensures left { IsTrue result → left < len }
    ensures few { IsFalse result → (len < capacity) ⊎ FewGone len left }
{
    capacity <= len && left < len && left <= len - len / GONE_PART
}

// For how many besides so many room is taken.
pub(crate) fn room_besides(len: usize) -> usize
    ensures { 0 < result }
{
    len / ROOM_PART + LEAST_ROOM
}

// For how many more there is room in a row.
pub(crate) fn room_in<X>(row: &Vec<X>) -> usize
    ensures { result ≡ row_room row.now }
{
    row.capacity() - row.len()
}

// Takes room for one more in a row.
pub(crate) fn take_room<X>(row: &mut Vec<X>) -> Result<(), AllocError>
    ensures items { row.new.items ≡ row.old.items }
    ensures room { OnOk result (vec_len row.new < vec_capacity row.new) }
    ensures no_less { row_room row.old ≤ row_room row.new }
    ensures full { OnErr result (row_room row.old ≡ 0) }
{
    if row.len() < row.capacity() {
        return Ok(());
    }
    row.reserve_exact(room_besides(row.len()))
}
