//! `db/format`.
ghost use Rattle.std.specs.Prelude.{◌≡◌, ◌++◌, IfOk, IfErr, Ok};
ghost use Rattle.fsfs_base.specs.Grammar.Reading.{Gives};
ghost use Rattle.fsfs_layout.specs.declared.format.Format.TheVariants.{Four};
ghost use Rattle.fsfs_layout.specs.declared.small_files.format_file.FormatFile.{FormatFile as Said};
ghost use Rattle.fsfs_layout.specs.declared.small_files.format_file.FormatFile.TheVariants.{Known};
ghost use Rattle.fsfs_layout.specs.Formats.{IsOurFormat, IsFormat, format_line, folders_line, written_format};
ghost use Rattle.fsfs_layout.specs.Small.{IsFaultOf};
ghost use Rattle.fsfs_layout.specs.Reading.{count_at, folders_at, all_folders_at, our_format_at, format_parts, format_at};

use crate::folders::Folders;
use crate::format::Format;
use crate::layout::Layout;
use crate::small_files::reading::begins_with;
use fsfs_base::decimals::{decimal, put_decimal};
use fsfs_base::pieces::text;
use fsfs_base::{SmallFault, SmallFile};
use std::alloc::{AllocError, Global};

/// What `db/format` says: the layout of a repository of format 4, or that it has another format.
#[derive(Clone, Copy, Debug, PartialEq, Eq)]
pub enum FormatFile {
    /// Format 4, laid out so.
    Known(Layout),
    /// This other format, 3 among them.
    Other(u64),
}

#[tactic(auto, unfolding(crate::specs::Reading::count_at))]
fn count(bytes: &[u8]) -> Result<(u64, &[u8]), usize>
    ensures { Gives (λ p. (p.0, p.1.now)) result (count_at bytes.now) }
{
    if begins_with(b'0', bytes) {
        return Err(bytes.len());
    }
    decimal(2147483647, b'\n', bytes)
}

#[tactic(auto, unfolding(crate::specs::Reading::folders_at))]
fn folders(bytes: &[u8]) -> Result<(Folders, &[u8]), usize>
    ensures { Gives (λ p. (p.0, p.1.now)) result (folders_at bytes.now) }
{
    let rest = text(b"layout ", bytes)?;
    if begins_with(b's', rest) {
        let rest = text(b"sharded ", rest)?;
        let (number, rest) = count(rest)?;
        Ok((Folders::Shards(number as u32), rest))
    } else {
        let rest = text(b"linear", rest)?;
        let rest = text(b"\n", rest)?;
        Ok((Folders::OneFolder, rest))
    }
}

#[tactic(auto, unfolding(crate::specs::Reading::all_folders_at))]
fn all_folders(bytes: &[u8]) -> Result<Folders, usize>
    ensures { Gives (λ f. f) result (all_folders_at bytes.now) }
{
    if bytes.is_empty() {
        return Ok(Folders::OneFolder);
    }
    let (found, rest) = folders(bytes)?;
    if !rest.is_empty() {
        return Err(rest.len());
    }
    Ok(found)
}

#[tactic(auto, unfolding(crate::specs::Reading::our_format_at))]
fn our_format(bytes: &[u8]) -> Result<Layout, usize>
    ensures { Gives (λ layout. (layout.format, layout.folders)) result (our_format_at bytes.now) }
{
    let rest = text(b"4\n", bytes)?;
    let found = all_folders(rest)?;
    Ok(Layout::new(Format::Four, found))
}

#[tactic(auto, unfolding(crate::specs::Reading::format_at))]
fn whole_format(bytes: &[u8]) -> Result<FormatFile, usize>
    ensures { Gives format_parts result (format_at bytes.now) }
{
    match our_format(bytes) {
        Ok(layout) => Ok(FormatFile::Known(layout)),
        Err(left) => match decimal(u64::MAX, b'\n', bytes) {
            Ok((number, _)) => {
                if number == 4 {
                    Err(left)
                } else {
                    Ok(FormatFile::Other(number))
                }
            }
            Err(_) => Err(left),
        },
    }
}

/// What `db/format` says. Format 4 is a line `4` and a line `layout linear` or `layout sharded N` or none, which is linear.
/// A line with another number is another format, and anything may stand behind it. All else is refused where it leaves
/// format 4.
pub fn read_format(bytes: &[u8]) -> Result<FormatFile, SmallFault>
    ensures found { IfOk result (IsFormat bytes.now) }
    ensures only { (f : Said) → IsFormat bytes.now f → result ≡ Ok f }
    ensures fault { IfErr result (IsFaultOf SmallFile.Format IsOurFormat bytes.now) }
{
    match whole_format(bytes) {
        Ok(found) => Ok(found),
        Err(left) => Err(SmallFault {
            file: SmallFile::Format,
            at: bytes.len() - left,
        }),
    }
}

fn put_format(out: &mut Vec<u8>, format: Format) -> Result<(), AllocError>
    ensures { IfOk result (λ _. out.new.items ≡ out.old.items ++ format_line format) }
{
    match format {
        Format::Three => out.extend_from_slice(b"3\n"),
        Format::Four => out.extend_from_slice(b"4\n"),
    }
}

fn put_folders(out: &mut Vec<u8>, folders: Folders) -> Result<(), AllocError>
    ensures { IfOk result (λ _. out.new.items ≡ out.old.items ++ folders_line folders) }
{
    match folders {
        Folders::Shards(size) => {
            out.extend_from_slice(b"layout sharded ")?;
            put_decimal(out, size as u64, b'\n')
        }
        Folders::OneFolder => out.extend_from_slice(b"layout linear\n"),
    }
}

/// The bytes of `db/format`: the format's line, and behind it always one for the folders.
pub fn write_format(alloc: Global, layout: Layout) -> Result<Vec<u8>, AllocError>
    ensures grammar { layout.format ≡ Four → IfOk result (λ v. IsFormat v.items (Known layout)) }
    ensures text { IfOk result (λ v. v.items ≡ written_format layout) }
{
    let mut out = Vec::new(alloc);
    put_format(&mut out, layout.format())?;
    put_folders(&mut out, layout.folders())?;
    Ok(out)
}
