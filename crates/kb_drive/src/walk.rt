//! An exploration on its way, step by step.
ghost use Rattle.std.specs.Prelude.{◌≡◌, ◌≤◌, ℕ, ◌↔◌, [], IfOk, IfErr, OnOk};
ghost use Rattle.kb_outside.specs.Outside.{Rose};
ghost use Rattle.kb_blast.specs.Query.{AreConditions, Query};
ghost use Rattle.kb_terms.specs.Terms.{AreTerms};
ghost use Rattle.kb_picture.specs.declared.path.Leaf.TheVariants.{Open as OpenLeaf};
ghost use Rattle.kb_frames.specs.Paths.{path_roots};
ghost use Rattle.kb_drive.specs.declared.follow.Next.TheVariants.{Lists};
ghost use Rattle.kb_drive.specs.Following.{HasCounted, IsAskedWithin, IsKnown, StoodMet, closed_with, given_after, walk_with};
ghost use Rattle.kb_drive.specs.Stops.{IfOracle, IsRefused, IsUnserved};
ghost use Rattle.kb_drive.specs.Walks.{IsFurther, IsRefined, IsWalk, KeepsCount, KeepsSources};

use crate::NoMemory;
use crate::ask::{learn, stopped};
use crate::follow::{Known, Next, follow};
use crate::stop::DriveStop;
use crate::waiting::{Taken, WaitingChoices};
use kb_class::MethodId;
use kb_heap::Bounds;
use kb_oracle::Oracle;
use kb_picture::{Leaf, Path};
use kb_rows::{Held, Row};
use kb_world::World;
use std::alloc::Global;

/// An exploration on its way: the paths that are listed and how many of them are not open, of which there are to be no more
/// than `paths`, and the choices that wait.
#[derive(Drop)]
pub(crate) struct Walk {
    pub(crate) target: MethodId,
    pub(crate) paths: u32,
    pub(crate) listed: Row<Path>,
    pub(crate) closed: u32,
    pub(crate) waiting: WaitingChoices,
}

impl Walk {
    /// An exploration that has nothing yet.
    pub(crate) fn new(alloc: Global, target: MethodId, paths: u32) -> Walk
        ensures { result ≡ record { target = target; paths = paths; listed = []; closed = 0; waiting = [] } }
    {
        Walk {
            target,
            paths,
            listed: Row::new(alloc),
            closed: 0,
            waiting: WaitingChoices::new(alloc),
        }
    }

    /// Adds what follows an alternative.
    pub(crate) fn add(&mut self, next: Next) -> Result<(), NoMemory>
        ensures { OnOk result (self.new ≡ walk_with self.old next) }
    {
        match next {
            Next::Lists(path) => self.list(path),
            Next::Waits(waiting) => self.waiting.push(waiting),
            Next::Leaves => Ok(()),
        }
    }

    fn list(&mut self, path: Held<Path>) -> Result<(), NoMemory>
        ensures { OnOk result (self.new ≡ walk_with self.old (Lists path)) }
    {
        let closed = closed_with(self.closed, path.get())?;
        self.listed.push(path.into_inner())?;
        self.closed = closed;
        Ok(())
    }
}

// How many paths are not open, with one path more.
fn closed_with(closed: u32, path: &Path) -> Result<u32, NoMemory>
    ensures { IfOk result (λ count. count ≡ closed_with closed (Lists path.now)) }
{
    if matches!(path.leaf, Leaf::Open) {
        return Ok(closed);
    }
    closed.checked_add(1).ok_or(NoMemory)
}

/// Takes the next alternative and adds what follows it. False where none waits. Once as many paths are listed as may be, nobody
/// is asked, and each alternative that waits is listed as an open path.
pub(crate) fn step<O: Oracle>(
    alloc: Global,
    world: &World,
    bounds: &Bounds,
    walk: &mut Walk,
    oracle: &mut O,
) -> Result<bool, DriveStop>
    requires { IsWalk world.now bounds.now (O.budget oracle.old) walk.old }
    ensures walk { OnOk result (IsWalk world.now bounds.now (O.budget oracle.old) walk.new) }
    ensures refined { OnOk result (IsRefined world.now bounds.now walk.old walk.new) }
    ensures further { IfOk result (IsFurther world.now bounds.now walk.old walk.new) }
    ensures given { OnOk result (KeepsSources world.now walk.old walk.new (O.given oracle.old) (O.given oracle.new)) }
    ensures unsure { OnOk result (KeepsCount walk.old walk.new (O.unsure oracle.old) (O.unsure oracle.new)) }
    ensures counted { IfErr result (IfOracle (λ _ _. Rose (O.bad oracle.old) (O.bad oracle.new))) }
    ensures unserved { IfErr result (IfOracle (IsUnserved world.now walk.old.target bounds.now (O.unfit oracle.old))) }
    ensures same_budget { O.budget oracle.new ≡ O.budget oracle.old }
    ensures same_unfit { (i : ℕ) (q : Query) → O.unfit oracle.new i q ↔ O.unfit oracle.old i q }
    ensures later_bad { O.bad oracle.old ≤ O.bad oracle.new }
    ensures later_unsure { O.unsure oracle.old ≤ O.unsure oracle.new }
{
    let Some(mut taken) = walk.waiting.take_next(alloc, world, bounds)? else {
        return Ok(false);
    };
    let known = match ask_within(alloc, walk, &mut taken, oracle) {
        Ok(known) => known,
        Err(stop) => return Err(stop),
    };
    let next = follow(alloc, world, bounds, taken, known)?;
    walk.add(next)?;
    Ok(true)
}

// What is known of the conditions of an alternative: nobody is asked once as many paths are listed as may be.
fn ask_within<O: Oracle>(
    alloc: Global,
    walk: &Walk,
    taken: &mut Taken,
    oracle: &mut O,
) -> Result<Known, DriveStop>
    requires conditions { AreConditions taken.old.piece.state.nodes taken.old.piece.state.when }
    requires terms { AreTerms taken.old.piece.state.nodes (path_roots taken.old.piece.state OpenLeaf) }
    requires met { StoodMet taken.old }
    ensures known { IfOk result (IsKnown (O.budget oracle.old) taken.old) }
    ensures within { IfOk result (IsAskedWithin walk.now) }
    ensures undecided { IfOk result (HasCounted (O.unsure oracle.old) (O.unsure oracle.new)) }
    ensures given { IfOk result (λ known. O.given oracle.new ≡ given_after (O.given oracle.old) known) }
    ensures counted { IfErr result (IfOracle (λ _ _. Rose (O.bad oracle.old) (O.bad oracle.new))) }
    ensures unserved { IfErr result (IfOracle (IsRefused (O.unfit oracle.old) taken.old.piece)) }
    ensures same_budget { O.budget oracle.new ≡ O.budget oracle.old }
    ensures same_unfit { (i : ℕ) (q : Query) → O.unfit oracle.new i q ↔ O.unfit oracle.old i q }
    ensures later_bad { O.bad oracle.old ≤ O.bad oracle.new }
    ensures later_unsure { O.unsure oracle.old ≤ O.unsure oracle.new }
    ensures same { taken.new ≡ taken.old }
{
    if walk.closed >= walk.paths {
        return Ok(Known::Open);
    }
    match learn(alloc, taken, oracle) {
        Ok(known) => Ok(known),
        Err(stop) => Err(stopped(alloc, taken.piece.get(), stop)),
    }
}
