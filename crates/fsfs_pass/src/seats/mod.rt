//! One store shared by passes: what a pass knows, the rule of the table at which passes sit, and the steps there that leave the disk
//! as it is.

pub(crate) mod joining;
pub(crate) mod law;
pub(crate) mod lock_word;
pub(crate) mod opening;
pub(crate) mod seat_view;
pub(crate) mod splitting;
pub(crate) mod table;
