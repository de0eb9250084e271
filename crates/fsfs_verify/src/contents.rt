//! The text and the properties of a node-revision.
ghost use Rattle.std.specs.Prelude.{◌≡◌, ◌<◌, ◌⊎◌, ℕ, List, true, false, None, Some, Ok, Err, IsSome, MatchResult, length, option_map};
ghost use Rattle.fsfs_base.specs.declared.kind.Kind.TheVariants.{File};
ghost use Rattle.fsfs_revision.specs.Damage.Causes.{HasCause};
ghost use Rattle.fsfs_revision.specs.declared.wrong.Refusal.{Refusal};
ghost use Rattle.fsfs_revision.specs.Rep.Faults.{IsRefusedFor};
ghost use Rattle.fsfs_revision.specs.Rep.Frames.{rev_of, IsWhole, IsFaultOf};
ghost use Rattle.fsfs_revision.specs.Told.{RevisionBytes, Knows, Keeps};
ghost use Rattle.fsfs_revision.specs.Shows.Chains.{own_rev, contents_rev};
ghost use Rattle.fsfs_revision.specs.Shows.Reading.{TextOf};
ghost use Rattle.fsfs_dag.specs.Views.{home_of};
ghost use Rattle.fsfs_verify.specs.Finds.{Finds};
ghost use Rattle.fsfs_verify.specs.Preds.{IsWrongProps};
ghost use Rattle.fsfs_sound.specs.Rules.{HasText, HasProps};
ghost use Rattle.fsfs_sound.specs.Written.{Precedes};

use crate::damage::breaks_rule;
use crate::same::same_contents;
use fsfs_base::RevNum;
use fsfs_dag::{PlacedNode, props};
use fsfs_digest::{is_large, sha1_of_rep};
use fsfs_look::check_rep;
use fsfs_noderev::Rep;
use fsfs_revision::{Book, ReadError};
use std::alloc::Global;
use std::thread::Threads;

// Whether the text of a file is its predecessor's.
fn keeps_text(file: &PlacedNode, pred: Option<&PlacedNode>) -> bool
    ensures { (look : RevisionBytes) → Precedes look file.now.node (option_map (λ u. u.now.node) pred.entry) → result ≡ true → HasText look file.now.node }
{
    match pred {
        None => false,
        Some(pred) => same_contents(&file.node.text, &pred.node.text),
    }
}

// Reads a representation to its end and checks it: its frame, its size and its digests. Of a large one a thread takes the SHA-1 beside;
// another is read a piece of this size at a time.
fn check_either<R: Threads, B: Book>(
    rt: &R,
    alloc: Global,
    book: &mut B,
    rep: &Rep,
    piece: &mut [u8],
) -> Result<(), ReadError>
    requires rev { IsSome rep.now.rev }
    requires room { 0 < length piece.old }
    ensures bytes { (bytes : List ℕ) → (B.told book.old).revs (rev_of rep.now) ≡ Some (Ok bytes) → MatchResult result (λ _. IsWhole rep.now bytes) (IsFaultOf rep.now bytes) }
    ensures refused { (why : Refusal) → (B.told book.old).revs (rev_of rep.now) ≡ Some (Err why) → MatchResult result (λ _. ⊥) (IsRefusedFor why) }
    ensures room { length piece.new ≡ length piece.old }
    ensures kept { Keeps (B.told book.old) (B.told book.new) }
    ensures cause { HasCause (B.faults book.old) (B.faults book.new) result }
{
    if !is_large(rep) || rep.unique.is_none() {
        return check_rep(book, rep, piece);
    }
    let _sha1 = sha1_of_rep(rt, alloc, book, rep, piece)?;
    Ok(())
}

/// Reads and checks the text of a file, unless it is its predecessor's: a large one with a thread for its SHA-1, another a piece of this
/// size at a time.
pub(crate) fn check_text<R: Threads, B: Book>(
    rt: &R,
    alloc: Global,
    book: &mut B,
    file: &PlacedNode,
    pred: Option<&PlacedNode>,
    piece: &mut [u8],
) -> Result<(), ReadError>
    requires file { file.now.node.kind ≡ File }
    requires room { 0 < length piece.old }
    ensures told { (look : RevisionBytes) → Knows (B.told book.old).revs (home_of file.now.node).rev look → Precedes look file.now.node (option_map (λ u. u.now.node) pred.entry)
        → Finds (λ _. HasText look file.now.node) (λ w. TextOf look file.now.node (Err w)) result }
    ensures room { length piece.new ≡ length piece.old }
    ensures kept { Keeps (B.told book.old) (B.told book.new) }
    ensures cause { HasCause (B.faults book.old) (B.faults book.new) result }
{
    if keeps_text(file, pred) {
        return Ok(());
    }
    match file.text() {
        None => Ok(()),
        Some(rep) => check_either(rt, alloc, book, rep, piece),
    }
}

// Whether the properties of a node-revision were set before this revision, or it has none.
fn are_older(rev: RevNum, node: &PlacedNode) -> bool
    ensures yes { result ≡ true → (contents_rev node.now.node.props < rev) ⊎ (node.now.node.props ≡ None) }
    ensures other { result ≡ false → (contents_rev node.now.node.props < rev) ⊎ (node.now.node.props ≡ None) → ⊥ }
{
    match node.props() {
        None => true,
        Some(rep) => rep.rev.unwrap_or(RevNum::ZERO) < rev,
    }
}

/// Reads and checks the properties of a node-revision of this revision, unless they are its predecessor's.
pub(crate) fn check_props<B: Book>(
    alloc: Global,
    book: &mut B,
    rev: RevNum,
    node: &PlacedNode,
    pred: Option<&PlacedNode>,
) -> Result<(), ReadError>
    ensures told { (look : RevisionBytes) → Knows (B.told book.old).revs rev look → own_rev node.now.node ≡ rev → Precedes look node.now.node (option_map (λ u. u.now.node) pred.entry)
        → Finds (λ _. HasProps look node.now.node) (IsWrongProps look node.now.node) result }
    ensures kept { Keeps (B.told book.old) (B.told book.new) }
    ensures cause { HasCause (B.faults book.old) (B.faults book.new) result }
{
    if let Some(pred) = pred {
        if same_contents(&node.node.props, &pred.node.props) {
            return Ok(());
        }
        if are_older(rev, node) {
            return Err(breaks_rule(node));
        }
    }
    let _read = props(alloc, book, node)?;
    Ok(())
}
