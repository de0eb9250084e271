//! Why a dump was not read.

/// A dump leaves its form: the first byte after which no dump goes on, or the length where it ends too early.
#[derive(Clone, Copy)]
pub struct HashFault {
    pub at: usize,
}

/// A dump was not read.
#[derive(Clone, Copy)]
pub enum HashError {
    OutOfMemory,
    Fault(HashFault),
}
