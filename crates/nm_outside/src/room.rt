//! Bytes in memory that grow within a room.

ghost use Rattle.std.specs.Prelude.{◌≡◌, ◌++◌, ◌≤◌, is_err, take, vec_capacity};
ghost use Rattle.std.specs.Option.{is_some};
ghost use Rattle.nm_outside.specs.Failing.{kept_within, part_of};

use crate::cabinet::Failed;

/// Adds the piece, or fails after a part of it: where it is past the room nothing is kept, and
/// where the call is to fail so many bytes.
pub(crate) fn extend(
    bytes: &mut Vec<u8>,
    room: u32,
    piece: &[u8],
    failing: Option<u32>,
) -> Result<(), Failed>
    requires { room ≤ vec_capacity bytes.old }
    ensures fails { is_err result ≡ is_some (kept_within room bytes.old.items piece.now failing) }
    ensures bytes { bytes.new.items
        ≡ bytes.old.items ++ part_of piece.now (kept_within room bytes.old.items piece.now failing) }
    ensures capacity { vec_capacity bytes.old ≤ vec_capacity bytes.new }
{
    if bytes.len() + piece.len() > room as usize {
        return Err(Failed);
    }
    if let Some(kept) = failing {
        let _ = bytes.extend_from_slice(front(piece, kept));
        return Err(Failed);
    }
    match bytes.extend_from_slice(piece) {
        Ok(()) => Ok(()),
        Err(_) => Err(Failed),
    }
}

// The first bytes, all of them where there are no more.
fn front(piece: &[u8], count: u32) -> &[u8]
    ensures { result.now ≡ take count piece.now }
{
    let count = count as usize;
    if count < piece.len() {
        piece.split_at(count).0
    } else {
        piece
    }
}
