//! What edits, landings and merges mean on whole trees: definitions of the flat model, and the marks of a transaction.
//! Slow plain functions over the flat definitions.
//! What the folded changes of a transaction tell of its tree.
#![tactic(auto)]

mod apply;
mod clash;
mod flat;
mod fold;
mod folds_laws;
mod history;
mod land;
mod laws;

pub use apply::{flat_apply, flat_mark};
pub use clash::flat_clash;
pub use flat::edit::Edit;
pub use flat::folded::Folded;
pub use flat::mark::{Effects, Mark, What};
pub use fold::flat_fold;
pub use folds_laws::folds_fit_the_tree;
pub use history::flat_history;
pub use land::flat_land;
pub use laws::{
    commits_make_a_history, folding_tells, landing_leaves_a_tree, outer_marks_stand_alone,
    path_histories_end, two_merges_are_one,
};
