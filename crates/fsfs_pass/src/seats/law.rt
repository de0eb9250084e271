//! The rule of the table, and what each step tells.
ghost use Rattle.std.specs.Prelude.{ℕ, List, Bool};
ghost use Rattle.fsfs_disk.specs.Seen.{DiskSeen};

use crate::seats::seat_view::{Beginning, SeatView};
use atomic_table::{Join, Play, Seat, Split, Table, TableRule};
use fsfs_base::Note;
use fsfs_disk::{Disk, SharedDisk};
use std::alloc::Global;
use std::marker::{Brand, PhantomData};

/// The rule: the table holds a state of the machine, and each seat knows what its pass knows of it. The note says how the table began; the
/// first seat knows no names then.
pub struct Law;

impl<D: Disk> TableRule<Option<SharedDisk<D>>, SeatView, Note<Beginning>> for Law {
    ghost use Rattle.fsfs_pass.specs.Rule.{Rule};
    ghost use Rattle.fsfs_pass.specs.Seats.{nameless_view};

    ghost holds = { λ key. Rule key.value.disk key.value.seat };

    ghost first = { λ key. nameless_view key.value.seat };
}

/// The table: the words DISK, LOCK and YOUNG, and one slot, for the disk.
pub type Board<D> = Table<Option<SharedDisk<D>>, SeatView, Note<Beginning>, Law, Global>;

/// A seat at it.
pub type SharedSeat<D> = Seat<Option<SharedDisk<D>>, SeatView>;

pub(crate) struct Look;

impl<D: Disk> Play<Option<SharedDisk<D>>, SeatView> for Look {
    ghost use Rattle.fsfs_pass.specs.Tells.{looked};

    ghost then = { looked };
}

pub(crate) struct TakeLock;

impl<D: Disk> Play<Option<SharedDisk<D>>, SeatView> for TakeLock {
    ghost use Rattle.fsfs_pass.specs.Tells.{locked};

    ghost then = { locked };
}

pub(crate) struct GiveLock;

impl<D: Disk> Play<Option<SharedDisk<D>>, SeatView> for GiveLock {
    ghost use Rattle.fsfs_pass.specs.Tells.{gave_lock};

    ghost then = { gave_lock };
}

pub(crate) struct StickLock;

impl<D: Disk> Play<Option<SharedDisk<D>>, SeatView> for StickLock {
    ghost use Rattle.fsfs_pass.specs.Tells.{stuck_it};

    ghost then = { stuck_it };
}

pub(crate) struct Reveal;

impl<D: Disk> Play<Option<SharedDisk<D>>, SeatView> for Reveal {
    ghost use Rattle.fsfs_pass.specs.Tells.{revealed};

    ghost then = { revealed };
}

/// With which disk the table began, whether its passes may pack, and which names were given then. Each call picks it.
pub(crate) trait Began {
    ghost disk: { DiskSeen };

    ghost packs: { Bool };

    ghost names: { List ℕ };
}

impl Began for Brand {
    ghost use Rattle.std.specs.Prelude.{[], None, false};

    ghost disk = { record { mount_path = []; trace = None; faults = 0; bench_faults = 0; failed = false } };

    ghost packs = { false };

    ghost names = { [] };
}

pub(crate) struct Take<K> {
    of: PhantomData<K>,
}

impl<K: Began, D: Disk> Play<Option<SharedDisk<D>>, SeatView> for Take<K> {
    ghost use Rattle.fsfs_pass.specs.Tells.{taken};

    ghost then = { taken K.disk K.packs K.names };
}

pub(crate) struct GiveBack;

impl<D: Disk> Play<Option<SharedDisk<D>>, SeatView> for GiveBack {
    ghost use Rattle.fsfs_pass.specs.Tells.{given_back};

    ghost then = { given_back };
}

pub(crate) struct TellNumber;

impl<D: Disk> Play<Option<SharedDisk<D>>, SeatView> for TellNumber {
    ghost use Rattle.fsfs_pass.specs.Tells.{numbered};

    ghost then = { numbered };
}

pub(crate) struct Settle;

impl<D: Disk> Play<Option<SharedDisk<D>>, SeatView> for Settle {
    ghost use Rattle.fsfs_pass.specs.Tells.{settled};

    ghost then = { settled };
}

/// How the view of a seat is cut in two, and how two become one.
pub(crate) struct Parting;

impl Split<SeatView> for Parting {
    ghost use Rattle.fsfs_pass.specs.Seats.{halved_view, split_pass};

    ghost left = { halved_view };

    ghost right = { split_pass };
}

impl Join<SeatView> for Parting {
    ghost use Rattle.fsfs_pass.specs.Seats.{joining_view, left_view};

    ghost both = { joining_view };

    ghost spent = { left_view };
}
