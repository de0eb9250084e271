//! Parts that fit in a buffer.
ghost use Rattle.std.specs.Prelude.{◌≡◌, min};

/// How many of the bytes that are left fit in so much room.
pub fn fitting(room: usize, left: u64) -> usize
    ensures { result ≡ min room left }
{
    left.min(room as u64) as usize
}
