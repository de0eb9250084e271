// The lines of an example that make and change files.
use crate::files::Files;
use crate::line::FileLine;
use anyhow::{Result, bail};
use fsfs_memory::bytes_of;
use std::alloc::Global;

// The bytes of a file that is there.
fn bytes_at<'a>(files: &'a mut Files, name: &str) -> Result<&'a mut Vec<u8>> {
    match files.get_mut(name) {
        Some(bytes) => Ok(bytes),
        None => bail!("no such file"),
    }
}

fn begin(alloc: Global, files: &mut Files, open: &mut String, name: &str) -> Result<()> {
    files.insert(String::from_str(alloc, name)?, Vec::new(alloc))?;
    *open = String::from_str(alloc, name)?;
    Ok(())
}

fn remove(files: &mut Files, name: &str) -> Result<()> {
    if files.remove(name).is_none() {
        bail!("no such file");
    }
    Ok(())
}

fn overwrite(bytes: &mut Vec<u8>, at: usize, new: &[u8]) -> Result<()> {
    match at.checked_add(new.len()) {
        Some(end) if end <= bytes.len() => bytes[at..end].copy_from_slice(new),
        _ => bail!("past the end of the file"),
    }
    Ok(())
}

fn cut(bytes: &mut Vec<u8>, length: usize) -> Result<()> {
    if length > bytes.len() {
        bail!("past the end of the file");
    }
    bytes.truncate(length);
    Ok(())
}

/// Changes the files as a line says. `open` is the name of the file that bytes go to.
pub fn edit(alloc: Global, files: &mut Files, open: &mut String, line: FileLine<'_>) -> Result<()> {
    match line {
        FileLine::New(name) => return begin(alloc, files, open, name),
        FileLine::Absent(name) => return remove(files, name),
        FileLine::More(name) => {
            bytes_at(files, name)?;
            *open = String::from_str(alloc, name)?;
        }
        FileLine::Whole(text) => {
            let bytes = bytes_at(files, open.as_str())?;
            bytes.extend_from_slice(&bytes_of(alloc, text)?)?;
            bytes.push(b'\n')?;
        }
        FileLine::Cut(text) => {
            bytes_at(files, open.as_str())?.extend_from_slice(&bytes_of(alloc, text)?)?;
        }
        FileLine::Times(count, text) => {
            let piece = bytes_of(alloc, text)?;
            let bytes = bytes_at(files, open.as_str())?;
            for _ in 0..count {
                bytes.extend_from_slice(&piece)?;
            }
        }
        FileLine::At(at, text) => {
            overwrite(bytes_at(files, open.as_str())?, at, &bytes_of(alloc, text)?)?;
        }
        FileLine::First(length) => cut(bytes_at(files, open.as_str())?, length)?,
    }
    Ok(())
}
