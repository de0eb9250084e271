//! The node-revisions that a revision wrote.
//!
//! They are met on a walk down from the root that goes into new directories alone; each is checked once, and each time that a
//! directory names it, it is checked against that directory.
ghost use Rattle.std.specs.Prelude.{◌≡◌, ◌≤◌, ◌<◌, ◌+◌, ◌∷◌, ℕ, List, Contains, length, slice_get, IfSome, IfOk, OnOk, Ok, option_map};
ghost use Rattle.fsfs_base.specs.declared.kind.Kind.TheVariants.{Dir};
ghost use Rattle.fsfs_noderev.specs.declared.node_id.Part.{Part};
ghost use Rattle.fsfs_noderev.specs.declared.node_rev.NodeRev.{NodeRev as Node};
ghost use Rattle.fsfs_revision.specs.declared.damage.DamageKind.TheVariants.{CopyId};
ghost use Rattle.fsfs_revision.specs.Damage.Causes.{HasCause, IsQuiet};
ghost use Rattle.fsfs_revision.specs.Damage.Damages.{damaged, place_of};
ghost use Rattle.fsfs_revision.specs.Shows.Chains.{own_rev};
ghost use Rattle.fsfs_revision.specs.Shows.Reading.{RootOf, offset_of};
ghost use Rattle.fsfs_dag.specs.Seen.{IsSeen};
ghost use Rattle.fsfs_dag.specs.TreeWalks.{pending_value, left, total, weight};
ghost use Rattle.fsfs_dag.specs.Views.{home_of};
ghost use Rattle.fsfs_revision.specs.Told.{RevisionBytes, Knows, Keeps};
ghost use Rattle.fsfs_verify.specs.declared.nodes.Copied.{Copied as Copy};
ghost use Rattle.fsfs_verify.specs.AllWritten.{HoldsTree};
ghost use Rattle.fsfs_verify.specs.Brought.{Brought};
ghost use Rattle.fsfs_verify.specs.Finds.{Finds};
ghost use Rattle.fsfs_verify.specs.LinksUp.{LeadsUp};
ghost use Rattle.fsfs_verify.specs.Roots.{IsLastRoot};
ghost use Rattle.fsfs_verify.specs.Steps.{IsLasting, IsSameWalk, IsSameStack, IsNewWalk, IsEntered, IsWrongEntering, Begins, IsWrongBeginning, TakesCopy, IsWrongCopyOf, TakesContents, IsWrongContents, TakesNode, IsWrongNode};
ghost use Rattle.fsfs_verify.specs.Walks.{HasListOf, IsWrongList, HasWalk, CopiesStandOnce};
ghost use Rattle.fsfs_sound.specs.Damaged.{IsDamaged};
ghost use Rattle.fsfs_sound.specs.Revisions.{IsSoundTree, AreSoundBefore};
ghost use Rattle.fsfs_sound.specs.Written.{Precedes, rev_of_id};

use crate::above::Above;
use crate::contents::{check_props, check_text};
use crate::copies::check_copy;
use crate::edges::{check_edge, check_older};
use crate::links::Links;
use crate::parts::Parts;
use crate::preds::pred_of;
use crate::roots::{check_root, dir_root};
use fsfs_base::{FsPath, Kind, RevNum};
use fsfs_dag::{DirEntry, Pending, PlacedNode, TreeWalk, entries};
use fsfs_history::EntriesByName;
use fsfs_noderev::Place;
use fsfs_revision::{Book, DamageKind, ReadError, RevOffset};
use std::alloc::{AllocError, Global};
use std::thread::Threads;

// How many bytes of a text are read at a time.
const PIECE: usize = 65536;

// A copy: where its node-revision stands in the revision, and the path at which it was made.
#[derive(Drop)]
struct Copied {
    place: u64,
    path: FsPath,
}

// The walk down the node-revisions that a revision wrote.
#[derive(Drop)]
struct NewNodes {
    rev: RevNum,
    walk: TreeWalk,
    // The directories above the next entry, from the root down.
    above: Vec<Above>,
    links: Links,
    copies: Vec<Copied>,
    piece: Vec<u8>,
}

fn entry_rev(entry: &DirEntry) -> RevNum
    ensures { result ≡ rev_of_id entry.now.id }
{
    match entry.id.place {
        Place::At(rev, _) => rev,
        Place::In(_) => RevNum::ZERO,
    }
}

// The entries of the predecessor of a directory; none where it has no predecessor.
fn entries_before<B: Book>(
    alloc: Global,
    book: &mut B,
    pred: Option<PlacedNode>,
) -> Result<EntriesByName, ReadError>
    requires { IfSome pred (λ u. u.node.kind ≡ Dir) }
    ensures told { (look : RevisionBytes) (rev : ℕ) → Knows (B.told book.old).revs rev look → IfSome pred (λ u. (home_of u.node).rev ≤ rev) → Finds (HasListOf look (option_map (λ u. u.node) pred)) (IsWrongList look (option_map (λ u. u.node) pred)) result }
    ensures kept { Keeps (B.told book.old) (B.told book.new) }
    ensures cause { HasCause (B.faults book.old) (B.faults book.new) result }
{
    match pred {
        None => {
            let found = EntriesByName::of(alloc, Vec::new(alloc))?;
            Ok(found)
        }
        Some(pred) => {
            let all = entries(alloc, book, &pred)?;
            let found = EntriesByName::of(alloc, all)?;
            Ok(found)
        }
    }
}

// A node-revision without predecessor begins a node.
fn begin(
    rev: RevNum,
    parts: &mut Parts,
    node: &PlacedNode,
    pred: Option<&PlacedNode>,
) -> Result<(), ReadError>
    ensures told { (look : RevisionBytes) (begun copied drawn : List Part) → IsLasting node.now.node.id → Precedes look node.now.node (option_map (λ u. u.now.node) pred.entry) → Brought rev parts.old begun copied drawn
        → Finds (λ _. (now : List Part) × Begins rev node.now.node begun now × Brought rev parts.new now copied drawn) (IsWrongBeginning rev begun node.now.node) result }
    ensures quiet { IsQuiet result }
{
    match pred {
        None => parts.begin_node(rev, node),
        Some(_) => Ok(()),
    }
}

impl NewNodes {
    fn new(alloc: Global, rev: RevNum) -> Result<NewNodes, AllocError>
        ensures new { IfOk result (IsNewWalk rev) }
        ensures room { IfOk result (λ nodes. 0 < length nodes.piece.items) }
        ensures seen { IfOk result (λ nodes. (look : RevisionBytes) → IsSeen look nodes.walk.seen) }
    {
        let piece = vec![in alloc; 0u8; PIECE]?;
        Ok(NewNodes {
            rev,
            walk: TreeWalk::new(alloc),
            above: Vec::new(alloc),
            links: Links::new(alloc),
            copies: Vec::new(alloc),
            piece,
        })
    }

    // Goes into a directory that stands in the last of those above.
    fn enter<B: Book>(
        &mut self,
        alloc: Global,
        book: &mut B,
        dir: PlacedNode,
        pred: Option<PlacedNode>,
    ) -> Result<(), ReadError>
        requires dir { dir.node.kind ≡ Dir }
        requires pred { IfSome pred (λ u. u.node.kind ≡ Dir) }
        ensures told { (look : RevisionBytes) → Knows (B.told book.old).revs (home_of dir.node).rev look → IfSome pred (λ u. (home_of u.node).rev ≤ (home_of dir.node).rev)
            → Finds (λ _. IsEntered look (length self.old.above.items) dir.node (option_map (λ u. u.node) pred) self.old self.new) (IsWrongEntering look dir.node (option_map (λ u. u.node) pred)) result }
        ensures same { OnOk result (IsSameWalk self.old self.new) }
        ensures copies { OnOk result (self.new.copies ≡ self.old.copies) }
        ensures above { OnOk result (length self.new.above.items ≡ length self.old.above.items + 1) }
        ensures total { OnOk result (total (left self.new.walk) < total (left self.old.walk) + weight (home_of dir.node)) }
        ensures kept { Keeps (B.told book.old) (B.told book.new) }
        ensures cause { HasCause (B.faults book.old) (B.faults book.new) result }
    {
        let before = entries_before(alloc, book, pred)?;
        let level = self.above.len();
        self.walk.enter(alloc, book, level, &dir)?;
        if self.above.push(Above { dir, before }).is_err() {
            return Err(ReadError::OutOfMemory);
        }
        Ok(())
    }

    // A copy, by itself.
    fn take_copy<B: Book>(
        &mut self,
        alloc: Global,
        book: &mut B,
        parts: &mut Parts,
        node: &PlacedNode,
    ) -> Result<(), ReadError>
        ensures told { (look : RevisionBytes) (begun copied drawn : List Part) → Knows (B.told book.old).revs self.old.rev look → own_rev node.now.node ≡ self.old.rev → IsLasting node.now.node.id → Brought self.old.rev parts.old begun copied drawn
            → Finds (λ _. (now : List Part) × TakesCopy look self.old.rev drawn node.now.node copied now self.old.copies.items self.new.copies.items × Brought self.old.rev parts.new begun now drawn)
            (IsWrongCopyOf look self.old.rev copied drawn node.now.node) result }
        ensures same { OnOk result (IsSameWalk self.old self.new) }
        ensures stack { OnOk result (IsSameStack self.old self.new) }
        ensures kept { Keeps (B.told book.old) (B.told book.new) }
        ensures cause { HasCause (B.faults book.old) (B.faults book.new) result }
    {
        match &node.node.copy_from {
            None => Ok(()),
            Some(source) => {
                check_copy(alloc, book, self.rev, parts, node, source)?;
                let path = node.node.created_path.clone()?;
                let place = node.place().offset;
                match self.copies.push(Copied { place, path }) {
                    Ok(()) => Ok(()),
                    Err(_) => Err(ReadError::OutOfMemory),
                }
            }
        }
    }

    // What a node-revision holds: a file's text is read, a directory is entered.
    fn take_contents<R: Threads, B: Book>(
        &mut self,
        rt: &R,
        alloc: Global,
        book: &mut B,
        node: PlacedNode,
        pred: Option<PlacedNode>,
    ) -> Result<(), ReadError>
        requires room { 0 < length self.old.piece.items }
        requires pred { IfSome pred (λ u. u.node.kind ≡ node.node.kind) }
        ensures told { (look : RevisionBytes) → Knows (B.told book.old).revs (home_of node.node).rev look → Precedes look node.node (option_map (λ u. u.node) pred)
            → Finds (λ _. TakesContents look (length self.old.above.items) node.node (option_map (λ u. u.node) pred) self.old self.new) (IsWrongContents look node.node (option_map (λ u. u.node) pred)) result }
        ensures same { OnOk result (IsSameWalk self.old self.new) }
        ensures copies { OnOk result (self.new.copies ≡ self.old.copies) }
        ensures above { OnOk result (length self.old.above.items ≤ length self.new.above.items) }
        ensures dir { OnOk result (node.node.kind ≡ Dir → length self.new.above.items ≡ length self.old.above.items + 1) }
        ensures total { OnOk result (total (left self.new.walk) < total (left self.old.walk) + weight (home_of node.node)) }
        ensures kept { Keeps (B.told book.old) (B.told book.new) }
        ensures cause { HasCause (B.faults book.old) (B.faults book.new) result }
    {
        match node.node.kind {
            Kind::File => check_text(rt, alloc, book, &node, pred.as_ref(), &mut self.piece),
            Kind::Dir => self.enter(alloc, book, node, pred),
        }
    }

    // A node-revision that is met for the first time, by itself and with what it holds.
    fn take_node<R: Threads, B: Book>(
        &mut self,
        rt: &R,
        alloc: Global,
        book: &mut B,
        parts: &mut Parts,
        node: PlacedNode,
        pred: Option<PlacedNode>,
    ) -> Result<(), ReadError>
        requires room { 0 < length self.old.piece.items }
        requires pred { IfSome pred (λ u. u.node.kind ≡ node.node.kind) }
        ensures told { (look : RevisionBytes) (begun copied drawn : List Part) → Knows (B.told book.old).revs self.old.rev look → own_rev node.node ≡ self.old.rev → IsLasting node.node.id
            → Precedes look node.node (option_map (λ u. u.node) pred) → Brought self.old.rev parts.old begun copied drawn
            → Finds (λ _. TakesNode look self.old.rev (length self.old.above.items) begun copied drawn node.node (option_map (λ u. u.node) pred) self.old self.new parts.new)
            (IsWrongNode look self.old.rev begun copied drawn node.node (option_map (λ u. u.node) pred)) result }
        ensures same { OnOk result (IsSameWalk self.old self.new) }
        ensures above { OnOk result (length self.old.above.items ≤ length self.new.above.items) }
        ensures dir { OnOk result (node.node.kind ≡ Dir → length self.new.above.items ≡ length self.old.above.items + 1) }
        ensures total { OnOk result (total (left self.new.walk) < total (left self.old.walk) + weight (home_of node.node)) }
        ensures kept { Keeps (B.told book.old) (B.told book.new) }
        ensures cause { HasCause (B.faults book.old) (B.faults book.new) result }
    {
        begin(self.rev, parts, &node, pred.as_ref())?;
        self.take_copy(alloc, book, parts, &node)?;
        check_props(alloc, book, self.rev, &node, pred.as_ref())?;
        self.take_contents(rt, alloc, book, node, pred)
    }

    // An entry of this revision of the last directory above.
    fn take_new<R: Threads, B: Book>(
        &mut self,
        rt: &R,
        alloc: Global,
        book: &mut B,
        parts: &mut Parts,
        next: Pending,
    ) -> Result<(), ReadError>
        requires room { 0 < length self.old.piece.items }
        requires above { 0 < length self.old.above.items }
        ensures told { (look props : RevisionBytes) (root : Node) → Knows (B.told book.old).revs self.old.rev look → AreSoundBefore look props self.old.rev → self.old.rev ≤ rev_of_id (pending_value next).1.id → next.level ≡ length self.old.above.items
            → HasWalk look self.old.rev root (pending_value next ∷ left self.old.walk) self.old parts.old
            → Finds (λ _. HasWalk look self.old.rev root (left self.new.walk) self.new parts.new) (IsDamaged look props self.old.rev) result }
        ensures rev { OnOk result (self.new.rev ≡ self.old.rev) }
        ensures room { OnOk result (0 < length self.new.piece.items) }
        ensures above { OnOk result (0 < length self.new.above.items) }
        ensures total { OnOk result (total (left self.new.walk) < total (left self.old.walk) + weight (offset_of (pending_value next).1.id.place)) }
        ensures kept { Keeps (B.told book.old) (B.told book.new) }
        ensures cause { HasCause (B.faults book.old) (B.faults book.new) result }
    {
        let node = self.walk.read(alloc, book, &next.entry)?;
        let pred = pred_of(alloc, book, &node)?;
        let Some(above) = self.above.last() else {
            unreachable!()
        };
        let before = above.before.get(next.entry.name.as_str());
        check_edge(
            alloc,
            book,
            self.rev,
            parts,
            &above.dir,
            before,
            &node,
            pred.as_ref(),
        )?;
        let dir = above.dir.place().offset;
        if self.links.put(node.place().offset, dir, next.entry.name)? {
            return self.take_node(rt, alloc, book, parts, node, pred);
        }
        Ok(())
    }

    // The next entry.
    fn take<R: Threads, B: Book>(
        &mut self,
        rt: &R,
        alloc: Global,
        book: &mut B,
        parts: &mut Parts,
        next: Pending,
    ) -> Result<(), ReadError>
        requires room { 0 < length self.old.piece.items }
        requires above { 0 < length self.old.above.items }
        ensures told { (look props : RevisionBytes) (root : Node) → Knows (B.told book.old).revs self.old.rev look → AreSoundBefore look props self.old.rev
            → HasWalk look self.old.rev root (pending_value next ∷ left self.old.walk) self.old parts.old
            → Finds (λ _. HasWalk look self.old.rev root (left self.new.walk) self.new parts.new) (IsDamaged look props self.old.rev) result }
        ensures rev { OnOk result (self.new.rev ≡ self.old.rev) }
        ensures room { OnOk result (0 < length self.new.piece.items) }
        ensures above { OnOk result (0 < length self.new.above.items) }
        ensures total { OnOk result (total (left self.new.walk) < total (left self.old.walk) + weight (offset_of (pending_value next).1.id.place)) }
        ensures kept { Keeps (B.told book.old) (B.told book.new) }
        ensures cause { HasCause (B.faults book.old) (B.faults book.new) result }
    {
        // The root stays: all entries stand below it.
        self.above.truncate(next.level.max(1));
        if !(entry_rev(&next.entry) < self.rev) {
            return self.take_new(rt, alloc, book, parts, next);
        }
        let Some(above) = self.above.last() else {
            unreachable!()
        };
        let before = above.before.get(next.entry.name.as_str());
        check_older(alloc, book, &next.entry, before)
    }

    // Each copy stands at the path at which it was made, and nowhere else in its revision.
    fn check_copies(&self, root: u64) -> Result<(), ReadError>
        ensures told { Finds (λ _. CopiesStandOnce self.now root) (λ w. (c : Copy) × Contains self.now.copies.items c × (LeadsUp self.now.links root c.place c.path → ⊥) × (w ≡ damaged (place_of self.now.rev c.place) CopyId)) result }
        ensures quiet { IsQuiet result }
    {
        for copy in &self.copies {
            if !self.links.stands_once(root, copy.place, &copy.path) {
                let at = RevOffset {
                    rev: self.rev,
                    offset: copy.place,
                };
                return Err(ReadError::damaged(at, DamageKind::CopyId));
            }
        }
        Ok(())
    }

    // The directory at which the walk began.
    fn into_root(self) -> Option<PlacedNode>
        ensures root { option_map (λ v. v.node) result ≡ option_map (λ a. a.dir.node) (slice_get self.above.items 0) }
        ensures dir { IfSome result (λ v. v.node.kind ≡ Dir) }
    {
        let NewNodes { above, .. } = self;
        match above.into_iter().next() {
            None => None,
            Some(above) => Some(above.dir),
        }
    }
}

/// The root of a revision. All node-revisions that the revision wrote are checked; `last` is the root of the one before.
pub(crate) fn check_tree<R: Threads, B: Book>(
    rt: &R,
    alloc: Global,
    book: &mut B,
    rev: RevNum,
    parts: &mut Parts,
    last: Option<&PlacedNode>,
) -> Result<PlacedNode, ReadError>
    ensures told { (look props : RevisionBytes) → Knows (B.told book.old).revs rev look → AreSoundBefore look props rev → HoldsTree look rev rev parts.old → IsLastRoot look rev (option_map (λ v. v.now.node) last.entry)
        → Finds (λ root. IsSoundTree look rev × RootOf look rev (Ok root.node) × HoldsTree look (rev + 1) rev parts.new) (IsDamaged look props rev) result }
    ensures dir { IfOk result (λ root. root.node.kind ≡ Dir) }
    ensures kept { Keeps (B.told book.old) (B.told book.new) }
    ensures cause { HasCause (B.faults book.old) (B.faults book.new) result }
{
    let root = dir_root(alloc, book, rev)?;
    let pred = pred_of(alloc, book, &root)?;
    check_root(alloc, book, &root, last)?;
    let place = root.place().offset;
    let mut nodes = NewNodes::new(alloc, rev)?;
    nodes.take_node(rt, alloc, book, parts, root, pred)?;
    'entries: while let Some(next) = nodes.walk.pop() {
        nodes.take(rt, alloc, book, parts, next)?;
    }
    nodes.check_copies(place)?;
    match nodes.into_root() {
        Some(root) => Ok(root),
        None => unreachable!(),
    }
}
