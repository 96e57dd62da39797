//! What is written into the room that a caller gives.
ghost use Rattle.std.specs.Prelude.{◌≡◌, length};
ghost use Rattle.croner_c.specs.Written.{written};

/// Copies the items that fit to the front of the room, and gives how many items there are.
pub(crate) fn put<T: Copy>(items: &[T], room: &mut [T]) -> usize
    ensures count { result ≡ length items.now }
    ensures room { room.new ≡ written items.now room.old }
{
    let count = items.len().min(room.len());
    room[..count].copy_from_slice(&items[..count]);
    items.len()
}
