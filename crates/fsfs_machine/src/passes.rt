//! What passes learn.
ghost use Rattle.std.specs.Prelude.{◌≡◌, ◌+◌, ◌++◌, ◌∷◌, [], OnOk, IfOk, Some};
ghost use Rattle.fsfs_machine.specs.Machine.{at_place, learns, reveals, joined, either_place, sees_floor, raised, is_known, first_pass};

use crate::files::is_fine;
use crate::machine::{Names, Numbers, Pass, Places, Went};
use fsfs_base::DiskPlace;
use std::alloc::{AllocError, Global};
use std::collections::VecDeque;

impl Places {
    pub fn new(alloc: Global) -> Places
        ensures { result ≡ [] }
    {
        Places {
            places: Vec::new(alloc),
        }
    }

    pub fn push(&mut self, place: DiskPlace) -> Result<(), AllocError>
        ensures { OnOk result (self.new ≡ self.old ++ place ∷ []) }
    {
        self.places.push(place)?;
        Ok(())
    }

    pub fn copy(&self, alloc: Global) -> Result<Places, AllocError>
        ensures { IfOk result (λ o. o ≡ self.now) }
    {
        Ok(Places {
            places: Vec::from_slice(alloc, &self.places)?,
        })
    }

    pub fn append(&mut self, more: &Places) -> Result<(), AllocError>
        ensures { OnOk result (self.new ≡ self.old ++ more.now) }
    {
        self.places.extend_from_slice(&more.places)?;
        Ok(())
    }
}

impl Numbers {
    pub fn new(alloc: Global) -> Numbers
        ensures { result ≡ [] }
    {
        Numbers {
            numbers: Vec::new(alloc),
        }
    }

    pub fn push(&mut self, number: u64) -> Result<(), AllocError>
        ensures { OnOk result (self.new ≡ self.old ++ number ∷ []) }
    {
        self.numbers.push(number)?;
        Ok(())
    }
}

impl Names {
    /// The same numbers.
    pub fn of(alloc: Global, numbers: &VecDeque<u128>) -> Result<Names, AllocError>
        ensures { IfOk result (λ o. o ≡ numbers.now.items) }
    {
        let mut names = Vec::new(alloc);
        for number in numbers {
            names.push(*number)?;
        }
        Ok(Names { names })
    }
}

impl Pass {
    /// The pass of an opening, which has seen so many revisions.
    pub fn first(alloc: Global, seen: u64, floor: u128) -> Pass
        ensures { result ≡ first_pass seen floor }
    {
        Pass {
            seen,
            least: seen.saturating_sub(1),
            mine: Numbers::new(alloc),
            floor,
            faults: Places::new(alloc),
            stuck: None,
        }
    }

    /// Whether it has seen the revision, or was told of it.
    pub fn knows(&self, rev: u64) -> bool
        ensures { result ≡ is_known self.now rev }
    {
        rev < self.seen || rev <= self.least
    }

    // A turn of the disk.
    fn learn(&mut self, seen: u64, place: DiskPlace, went: &Went) -> Result<(), AllocError>
        ensures { OnOk result (self.new ≡ learns seen place went.now self.old) }
    {
        self.seen = seen;
        if !is_fine(went) {
            self.faults.push(place)?;
        }
        Ok(())
    }

    // A reveal of the revision that follows `young` others.
    fn reveal(&mut self, young: u64, seen: u64) -> Result<(), AllocError>
        requires { seen ≡ young + 1 }
        ensures { OnOk result (self.new ≡ reveals young self.old) }
    {
        self.seen = seen;
        self.mine.push(young)?;
        Ok(())
    }

    // What the other knows, too.
    fn take_over(&mut self, other: &Pass) -> Result<(), AllocError>
        ensures { OnOk result (self.new ≡ joined other.now self.old) }
    {
        self.seen = self.seen.max(other.seen);
        self.least = self.least.max(other.least);
        self.floor = self.floor.max(other.floor);
        if let None = self.stuck {
            self.stuck = other.stuck;
        }
        self.faults.append(&other.faults)
    }

    // A turn that read the number in `min-unpacked-rev`.
    fn read_floor(&mut self, seen: u64, found: Option<u128>, went: &Went) -> Result<(), AllocError>
        ensures { OnOk result (self.new ≡ sees_floor seen went.now found self.old) }
    {
        self.seen = seen;
        if is_fine(went) {
            self.floor = raised_floor(found, self.floor);
        } else {
            self.faults.push(DiskPlace::Read)?;
        }
        Ok(())
    }

    /// The same view, with no revisions of its own and no faults.
    pub fn split(&self, alloc: Global) -> Pass
        ensures { result ≡ record self.now { mine = []; faults = [] } }
    {
        Pass {
            seen: self.seen,
            least: self.least,
            mine: Numbers::new(alloc),
            floor: self.floor,
            faults: Places::new(alloc),
            stuck: self.stuck,
        }
    }

    /// The same view again.
    pub fn view(&self, alloc: Global) -> Result<Pass, AllocError>
        ensures { IfOk result (λ x. x ≡ record self.now { mine = [] }) }
    {
        Ok(Pass {
            seen: self.seen,
            least: self.least,
            mine: Numbers::new(alloc),
            floor: self.floor,
            faults: self.faults.copy(alloc)?,
            stuck: self.stuck,
        })
    }
}

fn raised_floor(found: Option<u128>, floor: u128) -> u128
    ensures { result ≡ raised found floor }
{
    match found {
        Some(number) => floor.max(number),
        None => floor,
    }
}

/// The pass took a turn of the disk.
#[tactic(auto, using(crate::proofs::OnePlace::set_at_place, crate::proofs::OnePlace::no_place))]
pub fn learn(
    passes: &mut Vec<Pass>,
    p: u64,
    seen: u64,
    place: DiskPlace,
    went: &Went,
) -> Result<(), AllocError>
    ensures { OnOk result (passes.new.items ≡ at_place passes.old.items p (learns seen place went.now)) }
{
    let at = p as usize;
    if at < passes.len() {
        let pass = &mut passes[at];
        pass.learn(seen, place, went)?;
    }
    Ok(())
}

/// The pass revealed a revision.
#[tactic(auto, using(crate::proofs::OnePlace::set_at_place, crate::proofs::OnePlace::no_place))]
pub fn reveal_by(passes: &mut Vec<Pass>, p: u64, young: u64, seen: u64) -> Result<(), AllocError>
    requires { seen ≡ young + 1 }
    ensures { OnOk result (passes.new.items ≡ at_place passes.old.items p (reveals young)) }
{
    let at = p as usize;
    if at < passes.len() {
        let pass = &mut passes[at];
        pass.reveal(young, seen)?;
    }
    Ok(())
}

/// The pass read `min-unpacked-rev`.
#[tactic(auto, using(crate::proofs::OnePlace::set_at_place, crate::proofs::OnePlace::no_place))]
pub fn read_floor_by(
    passes: &mut Vec<Pass>,
    p: u64,
    seen: u64,
    found: Option<u128>,
    went: &Went,
) -> Result<(), AllocError>
    ensures { OnOk result (passes.new.items ≡ at_place passes.old.items p (sees_floor seen went.now found)) }
{
    let at = p as usize;
    if at < passes.len() {
        let pass = &mut passes[at];
        pass.read_floor(seen, found, went)?;
    }
    Ok(())
}

/// The pass takes over what the other knows.
#[tactic(auto, using(crate::proofs::OnePlace::set_at_place, crate::proofs::OnePlace::no_place))]
pub fn join_to(passes: &mut Vec<Pass>, p: u64, other: &Pass) -> Result<(), AllocError>
    ensures { OnOk result (passes.new.items ≡ at_place passes.old.items p (joined other.now)) }
{
    let at = p as usize;
    if at < passes.len() {
        let pass = &mut passes[at];
        pass.take_over(other)?;
    }
    Ok(())
}

/// The pass found the lock stuck.
#[tactic(auto, using(crate::proofs::OnePlace::set_at_place, crate::proofs::OnePlace::no_place))]
pub fn find_stuck(passes: &mut Vec<Pass>, p: u64, place: DiskPlace)
    ensures { passes.new.items ≡ at_place passes.old.items p (λ x. record x { stuck = Some place }) }
{
    let at = p as usize;
    if at < passes.len() {
        let pass = &mut passes[at];
        pass.stuck = Some(place);
    }
}

/// The pass was told the youngest number.
#[tactic(auto, using(crate::proofs::OnePlace::set_at_place, crate::proofs::OnePlace::no_place))]
pub fn see_least(passes: &mut Vec<Pass>, p: u64, young: u64)
    ensures { passes.new.items ≡ at_place passes.old.items p (λ x. record x { least = young }) }
{
    let at = p as usize;
    if at < passes.len() {
        let pass = &mut passes[at];
        pass.least = young;
    }
}
