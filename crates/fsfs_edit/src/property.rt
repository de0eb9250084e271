//! A list of properties with one set or removed, and the length that a value may have.
ghost use Rattle.std.specs.Prelude.{◌≡◌, IfOk};
ghost use Rattle.fsfs_model.specs.Flat.Edits.{changed_props, bytes_of, fits_value};

use fsfs_base::{Pairs, PropName};
use std::alloc::{AllocError, Global};

const LONGEST_VALUE: usize = 1048576;

/// Whether a value has no more bytes than a property may have.
pub fn fits(value: &Option<Vec<u8>>) -> bool
    ensures { result ≡ fits_value (bytes_of value.now) }
{
    match value {
        None => true,
        Some(value) => value.len() <= LONGEST_VALUE,
    }
}

/// The properties with this value under the name, or without the name.
pub fn with_value(
    alloc: Global,
    mut props: Pairs,
    name: &PropName,
    value: Option<Vec<u8>>,
) -> Result<Pairs, AllocError>
    ensures { IfOk result (λ changed. changed ≡ changed_props name.now (bytes_of value) props) }
{
    match value {
        None => props.remove(name.as_str().as_bytes()),
        Some(value) => {
            let name = Vec::from_slice(alloc, name.as_str().as_bytes())?;
            props.set(name, value)?;
        }
    }
    Ok(props)
}
