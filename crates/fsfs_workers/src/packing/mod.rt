//! Jobs are done, and beside them a pass packs.

mod beside;
mod run;
pub(crate) mod script;
