//! Ids that name files.
ghost use Rattle.fsfs_noderev.specs.Ids.{part_value};
ghost use Rattle.fsfs_txn_files.specs.FileNames.{FitsPart};
ghost use Rattle.fsfs_txn_nodes.specs.TxnFolder.Telling.{FitsNode};

use fsfs_noderev::{NodeId, Part};

// A revision's number is within its limit: so its text is short, as is that of a number in base 36.
fn part_fits(part: Part)
    ensures { FitsPart (part_value part) }
{
    match part {
        Part::New(_) => {}
        Part::Old(_) => {}
        Part::Made(_, rev) => {
            let _within = rev.get();
        }
    }
}

/// The parts of an id are within their limits, so that the names of its files are its own.
pub fn id_fits(id: &NodeId)
    ensures { FitsNode id.now }
{
    part_fits(id.node);
    part_fits(id.copy);
}
