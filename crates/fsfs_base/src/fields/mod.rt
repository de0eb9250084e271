//! What stands in one field of a file: dates, digests, names of properties, revisions and transactions.

pub(crate) mod date;
pub(crate) mod digest;
pub(crate) mod prop_name;
pub(crate) mod rev_num;
pub(crate) mod txn_name;
