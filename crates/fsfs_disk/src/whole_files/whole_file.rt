//! A file read as a whole, as far as its format can go.
ghost use Rattle.std.specs.Prelude.{◌≡◌, ◌≤◌, ◌<◌, ◌+◌, List, Option, ℕ, length, IfOk, IfErr, IfSome, option_map};
ghost use Rattle.fsfs_base.specs.Failures.{Rose};
ghost use Rattle.fsfs_disk.specs.Fronts.{IsFrontOf};
ghost use Rattle.fsfs_disk.specs.WholeFiles.FileFaults.{IfFailed};
ghost use Rattle.fsfs_disk.specs.WholeFiles.FirstBytes.{first_of, IsNextPiece};

use crate::whole_files::file_fault::FileFault;
use crate::whole_files::parts::Parts;
use fsfs_base::Name;
use std::alloc::Global;

// Adds the next piece of a file to its first bytes, no more than there is room for, and answers how many bytes it has: none at
// the file's end alone. `None`: there is no such file.
fn read_piece<P: Parts>(
    parts: &mut P,
    name: &Name,
    room: usize,
    bytes: &mut Vec<u8>,
) -> Result<Option<usize>, FileFault>
    requires { 0 < room }
    ensures next { (file : Option (List ℕ)) → P.tells parts.old name.now file → IsFrontOf bytes.old.items file → IfOk result (IsNextPiece file bytes.new.items) }
    ensures size { IfOk result (λ found. IfSome found (λ n. (n ≤ room) × (length bytes.new.items ≡ length bytes.old.items + n))) }
    ensures later { P.later parts.old parts.new }
    ensures faults { P.faults parts.old ≤ P.faults parts.new }
    ensures failed { IfErr result (IfFailed (Rose (P.faults parts.old) (P.faults parts.new))) }
{
    let mut buffer = [0; 4096];
    let piece = &mut buffer[..room.min(4096)];
    let Some(count) = parts.read_part(name, bytes.len() as u64, piece)? else {
        return Ok(None);
    };
    bytes.extend_from_slice(&piece[..count])?;
    Ok(Some(count))
}

/// The bytes of a file, no more than its first `most`: what stands behind them isn't read. `None`: there is no such file.
pub fn read_file<P: Parts>(
    alloc: Global,
    parts: &mut P,
    name: &Name,
    most: usize,
) -> Result<Option<Vec<u8>>, FileFault>
    requires { 0 < most }
    ensures bytes { (file : Option (List ℕ)) → P.tells parts.old name.now file → IfOk result (λ found. option_map (λ v. v.items) found ≡ first_of most file) }
    ensures later { P.later parts.old parts.new }
    ensures faults { P.faults parts.old ≤ P.faults parts.new }
    ensures failed { IfErr result (IfFailed (Rose (P.faults parts.old) (P.faults parts.new))) }
{
    let mut bytes = Vec::new(alloc);
    for _ in 0..u64::MAX {
        let room = most - bytes.len();
        let Some(count) = read_piece(parts, name, room, &mut bytes)? else {
            return Ok(None);
        };
        if count == 0 || count == room {
            return Ok(Some(bytes));
        }
    }
    Err(FileFault::Memory)
}
