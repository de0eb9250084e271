//! One store shared by passes: what a pass knows, the rule of the table at which passes sit, and the steps there that leave the disk as
//! it is.
//! The calls of a disk that passes share. Each takes the disk, makes one call, and gives the disk back: that is one step of the machine.
//! The turns of a pass that sits at the table of a store: other passes step between them.
#![tactic(auto)]

mod notes;
mod pass_turns;
mod seat_calls;
mod seats;
mod turns;

pub use notes::said_again;
pub use pass_turns::PassTurns;
pub use seat_calls::calls::{adopt_part, firm_names, make_folder, put, rename};
pub use seat_calls::firsts::{adopt, adopt_file, draw};
pub use seat_calls::labels::{bench, drop_bench, list};
pub use seat_calls::packs::{drop_folder, make_pack_folder, remove};
pub use seat_calls::reads::{read, size};
pub use seats::joining::join;
pub use seats::law::{Board, Law, SharedSeat};
pub use seats::opening::{close, start};
pub use seats::seat_view::{Beginning, Hand, Kin, SeatView, Stage, Taken, Told};
pub use seats::splitting::split;
pub use seats::table::{give_lock, look, reveal, stick, take, take_lock};
