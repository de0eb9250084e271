// Why the system did not do a call, and calls that a signal interrupts.
use fsfs_folders::CallError;
use std::io;
use std::io::ErrorKind;

// A file in the place of a folder above a path has nothing below.
pub fn error_of(error: &io::Error) -> CallError {
    match error.kind() {
        ErrorKind::NotFound | ErrorKind::NotADirectory => CallError::NotFound,
        ErrorKind::AlreadyExists => CallError::Exists,
        ErrorKind::IsADirectory => CallError::OtherKind,
        ErrorKind::WouldBlock => CallError::Locked,
        ErrorKind::PermissionDenied => CallError::Denied,
        ErrorKind::OutOfMemory => CallError::Memory,
        _ => CallError::Failed,
    }
}

// Makes a call again as long as a signal interrupts it.
pub fn finished<T, F: Fn() -> io::Result<T> + Drop>(call: F) -> Result<T, CallError>
    requires { F.IsAlwaysCallable call }
{
    for _ in 0..u64::MAX {
        match call() {
            Ok(value) => return Ok(value),
            Err(error) if error.kind() == ErrorKind::Interrupted => {}
            Err(error) => return Err(error_of(&error)),
        }
    }
    Err(CallError::Failed)
}
