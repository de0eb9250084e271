//! The laws of histories. Each of these functions does nothing: what it ensures is proved once for all bytes.
ghost use Rattle.fsfs_stands.specs.FirstHistory.{FirstHistoryIsShown};
ghost use Rattle.fsfs_stands.specs.NewRepository.{CreationsHoldNew, NewRepositoriesStand};
ghost use Rattle.fsfs_stands.specs.Same.{OneHistoryIsShown, OneHistoryIsStoodFor};

/// The bytes of revisions and their property files show one history at most of so many revisions, and files stand for one at
/// most.
pub fn one_history_is_shown()
    ensures bytes { OneHistoryIsShown }
    ensures files { OneHistoryIsStoodFor }
{}

/// The bytes of revision 0 of a new repository, and its property file with a date, show the history of that revision alone.
pub fn the_first_history_is_shown()
    ensures { FirstHistoryIsShown }
{}

/// The files of a new repository stand for the history of revision 0 alone (`/`, no changes, the date), whatever the date, the
/// identifier and the size of a shard.
pub fn new_repositories_stand()
    ensures { NewRepositoriesStand }
{}

/// A creation makes of any files those of a new repository, with the date of its moment.
pub fn creations_hold_new()
    ensures { CreationsHoldNew }
{}
