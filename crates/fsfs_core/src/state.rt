//! The machine as data, and its steps.
ghost use Rattle.std.specs.Prelude.{◌≡◌, ◌∷◌, ◌++◌, [], length, OnOk, IfOk, None};
ghost use Rattle.std.specs.NonZero.{non_zero_u64_get};
ghost use Rattle.std.specs.FinMap as finmap;
ghost use Rattle.fsfs_tree.specs.Nodes.{empty_node};
ghost use Rattle.fsfs_machine.specs.Machine.{Happens, Runs, did, created, first_revision, stuck_place, revisions, is_there};
ghost use Rattle.fsfs_machine.specs.Kept.{Kept, Keeps, RunKeeps};
ghost use Rattle.fsfs_core.specs.State.{world_of};

use fsfs_base::{DiskPlace, FsPath, Kind, Pairs, RevNum};
use fsfs_machine::{
    Bytes, Contents, Drawn, Entry, FileName, Line, Lock, NameChange, Outcome, Pass, Step, Txn,
};
use fsfs_tree::{ChangeMap, History, Node, Revision, Text, Tree};
use std::alloc::{AllocError, Global};
use std::collections::VecDeque;
use std::num::NonZeroU64;

/// The machine's state.
#[derive(Drop)]
pub struct State {
    pub(crate) alloc: Global,
    // The newest change first.
    pub(crate) disk: VecDeque<NameChange>,
    pub(crate) lock: Lock,
    pub(crate) young: u64,
    pub(crate) line: Line,
    // How many revisions there were at the opening, and the entries of those since.
    pub(crate) opening: u64,
    pub(crate) since: Vec<Entry>,
    // How many revisions a shard has.
    pub(crate) size: NonZeroU64,
    // The floor that the opening read, and that which is firm.
    pub(crate) low: u128,
    pub(crate) floor: u128,
    // The newest name first.
    pub(crate) given: VecDeque<u128>,
    // The newest label first.
    pub(crate) labels: VecDeque<u128>,
    pub(crate) named: Vec<Drawn>,
    pub(crate) txns: Vec<Txn>,
    pub(crate) spent: Vec<u128>,
    pub(crate) passes: Vec<Pass>,
}

// The tree of revision 0: `/` alone.
fn first_tree(alloc: Global) -> Result<Tree, AllocError>
    ensures { IfOk result (λ tree. tree ≡ finmap.insert finmap.empty [] (empty_node Kind.Dir)) }
{
    let mut tree = Tree::new(alloc);
    let root = Node {
        kind: Kind::Dir,
        text: Text::Bytes(Vec::new(alloc)),
        properties: Pairs::new(alloc),
        source: None,
        added: RevNum::ZERO,
        props_changed: RevNum::ZERO,
        last_changed: RevNum::ZERO,
    };
    tree.insert(FsPath::root(alloc), root)?;
    Ok(tree)
}

// The files of a repository of revision 0, all of them firm.
fn first_files(
    alloc: Global,
    properties: &Pairs,
    bytes: &Bytes,
) -> Result<VecDeque<NameChange>, AllocError>
    ensures { IfOk result (λ disk. disk.items ≡ (created 0 properties.now bytes.now).disk) }
{
    let file = Contents::RevFile(
        first_tree(alloc)?,
        ChangeMap::new(alloc),
        bytes.copy(alloc)?,
    );
    let mut disk = VecDeque::new(alloc);
    disk.push_front(NameChange::Put(FileName::Floor, Contents::Number(0)))?;
    disk.push_front(NameChange::Put(FileName::Counter, Contents::Number(0)))?;
    disk.push_front(NameChange::Put(FileName::Props(0), Contents::PropsFile(properties.clone()?)))?;
    disk.push_front(NameChange::Put(FileName::Rev(0), file))?;
    disk.push_front(NameChange::Put(FileName::Current, Contents::Number(0)))?;
    disk.push_front(NameChange::Firm)?;
    Ok(disk)
}

// Revision 0 alone.
fn first_line(alloc: Global, properties: Pairs, bytes: Bytes) -> Result<Line, AllocError>
    ensures { IfOk result (λ line. line ≡ first_revision properties bytes ∷ []) }
{
    let mut line = Line::new(alloc);
    let revision = Revision {
        tree: first_tree(alloc)?,
        changes: ChangeMap::new(alloc),
        properties,
    };
    line.push(revision, bytes)?;
    Ok(line)
}

impl State {
    /// A repository of revision 0, with shards of this size, open, all of it firm; revision 0 has these properties, and
    /// its file these bytes.
    pub fn create(
        alloc: Global,
        size: NonZeroU64,
        properties: Pairs,
        bytes: Bytes,
    ) -> Result<State, AllocError>
        ensures world { IfOk result (λ s. world_of s ≡ created (non_zero_u64_get size) properties bytes) }
        ensures kept { IfOk result (λ s. Kept (world_of s)) }
    {
        let disk = first_files(alloc, &properties, &bytes)?;
        let line = first_line(alloc, properties, bytes)?;
        let mut passes = Vec::new(alloc);
        passes.push(Pass::first(alloc, 1, 0))?;
        Ok(State {
            alloc,
            disk,
            lock: Lock::Free,
            young: 0,
            line,
            opening: 1,
            since: Vec::new(alloc),
            size,
            low: 0,
            floor: 0,
            given: VecDeque::new(alloc),
            labels: VecDeque::new(alloc),
            named: Vec::new(alloc),
            txns: Vec::new(alloc),
            spent: Vec::new(alloc),
            passes,
        })
    }

    /// The number of the youngest revision.
    pub fn young(&self) -> u64
        ensures { result ≡ (world_of self.now).young }
    {
        self.young
    }

    /// Where the lock is stuck.
    pub fn stuck(&self) -> Option<DiskPlace>
        ensures { result ≡ stuck_place (world_of self.now).lock }
    {
        match &self.lock {
            Lock::Stuck(place, _) | Lock::StuckFloor(place) => Some(*place),
            _ => None,
        }
    }

    /// The history, without the bytes beside it.
    pub fn history(&self) -> &History
        ensures { result.now ≡ revisions (world_of self.now).history }
    {
        self.line.revisions()
    }

    // How many revisions there are.
    pub(crate) fn count(&self) -> u64
        ensures { result ≡ length self.now.line }
    {
        self.line.count() as u64
    }

    // Whether there is such a pass.
    pub(crate) fn is_there(&self, p: u64) -> bool
        ensures { result ≡ is_there (world_of self.now) p }
    {
        (p as usize) < self.passes.len()
    }

    fn take_step(&mut self, s: Step) -> Result<Outcome, AllocError>
        ensures { IfOk result (λ o. Happens (world_of self.old) s (did (world_of self.new) o)) }
    {
        match s {
            Step::TakeLock { pass } => Ok(self.take_lock(pass)),
            Step::GiveLock { pass } => Ok(self.give_lock(pass)),
            Step::StickLock { pass } => Ok(self.stick_lock(pass)),
            Step::Draw { pass, base, went } => self.draw(pass, base, &went),
            Step::AdoptRev {
                pass,
                txn,
                properties,
                bytes,
                went,
            } => self.adopt_rev(pass, txn, properties, bytes, went),
            Step::Call { pass, place, went } => self.call(pass, place, went),
            Step::RemoveOld { pass, rev, went } => self.remove_old(pass, rev, went),
            Step::Beside { pass, place, went } => self.beside(pass, place, &went),
            Step::Reveal { pass } => self.reveal(pass),
            Step::Look { pass } => Ok(self.look(pass)),
            Step::Read {
                pass,
                rev,
                offset,
                length,
                went,
            } => self.read(pass, rev, offset, length, &went),
            Step::ReadProps { pass, rev, went } => self.read_props(pass, rev, &went),
            Step::ReadFloor { pass, went } => self.read_floor(pass, &went),
            Step::Split { pass } => self.split(pass),
            Step::Join { pass, other } => self.join(pass, other),
            Step::Edit { txn, edit } => self.edit(txn, &edit),
            Step::Merge { txn, head } => self.merge(txn, head),
            Step::MakeBench { pass, name, went } => self.make_bench(pass, name, &went),
            Step::ListTxns { pass, went } => self.list_txns(pass, &went),
            Step::Purge { pass, txn, went } => self.purge(pass, txn, &went),
            Step::PurgeSpent { pass, spent, went } => self.purge_spent(pass, spent, &went),
            Step::ListLabels { went } => self.list_labels(&went),
            Step::DropLabel { name, went } => self.drop_label(name, &went),
            Step::Close => Ok(self.close()),
            Step::Crash { picks, labels } => self.crash(&picks, &labels),
            Step::Open { went } => self.open(went),
        }
    }

    /// One step, and what it read or answered: a step that isn't allowed changes nothing and answers `Barred`. On
    /// want of memory nothing is said of the state.
    pub fn step(&mut self, s: Step) -> Result<Outcome, AllocError>
        ensures happens { IfOk result (λ o. Happens (world_of self.old) s (did (world_of self.new) o)) }
        ensures kept { IfOk result (λ o. Kept (world_of self.old) → Keeps (world_of self.old) s (did (world_of self.new) o)) }
    {
        self.take_step(s)
    }

    /// Step after step, with the outcome of each.
    pub fn run(&mut self, mut steps: VecDeque<Step>) -> Result<Vec<Outcome>, AllocError>
        ensures runs { IfOk result (λ os. Runs (world_of self.old) steps.items os.items (world_of self.new)) }
        ensures kept { IfOk result (λ os. Kept (world_of self.old) → RunKeeps (world_of self.old) (world_of self.new)) }
    {
        let mut outcomes = Vec::new(self.alloc);
        while let Some(step) = steps.pop_front() {
            outcomes.push(self.step(step)?)?;
        }
        Ok(outcomes)
    }
}
