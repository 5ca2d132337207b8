//! What is known of an alternative's conditions, and what an oracle's stop says.
ghost use Rattle.std.specs.Prelude.{◌≡◌, ◌≤◌, ℕ, ◌↔◌, IfOk, IfErr, OnErr};
ghost use Rattle.kb_outside.specs.Outside.{Rose};
ghost use Rattle.kb_blast.specs.Query.{AreConditions, Query, query_of};
ghost use Rattle.kb_oracle.specs.Answers.{IfBad};
ghost use Rattle.kb_terms.specs.Terms.{AreTerms};
ghost use Rattle.kb_picture.specs.declared.path.Leaf.TheVariants.{Open};
ghost use Rattle.kb_frames.specs.Paths.{path_roots};
ghost use Rattle.kb_drive.specs.Following.{HasCounted, IsKnown, IsLearnt, StoodMet, given_after, path_of_piece};
ghost use Rattle.kb_drive.specs.Stops.{IfOracle, IsOf};

use crate::follow::Known;
use crate::leaf::path_of;
use crate::piece::Piece;
use crate::stop::DriveStop;
use crate::waiting::Taken;
use kb_oracle::{Oracle, OracleStop};
use kb_picture::Leaf;
use std::alloc::Global;

/// What is known of the conditions of an alternative that was taken. Nobody is asked where the values from before it meet them
/// all; those that stood before they meet.
pub(crate) fn learn<O: Oracle>(
    alloc: Global,
    taken: &mut Taken,
    oracle: &mut O,
) -> Result<Known, OracleStop>
    requires conditions { AreConditions taken.old.piece.state.nodes taken.old.piece.state.when }
    requires met { StoodMet taken.old }
    ensures learnt { IfOk result (IsLearnt taken.old) }
    ensures known { IfOk result (IsKnown (O.budget oracle.old) taken.old) }
    ensures undecided { IfOk result (HasCounted (O.unsure oracle.old) (O.unsure oracle.new)) }
    ensures given { IfOk result (λ known. O.given oracle.new ≡ given_after (O.given oracle.old) known) }
    ensures counted { IfErr result (IfBad (λ _. Rose (O.bad oracle.old) (O.bad oracle.new))) }
    ensures unserved { IfErr result (IfBad (λ i. O.unfit oracle.old i (query_of taken.old.piece.state.nodes taken.old.piece.state.when))) }
    ensures same_budget { O.budget oracle.new ≡ O.budget oracle.old }
    ensures same_unfit { (i : ℕ) (q : Query) → O.unfit oracle.new i q ↔ O.unfit oracle.old i q }
    ensures later_bad { O.bad oracle.old ≤ O.bad oracle.new }
    ensures later_unsure { O.unsure oracle.old ≤ O.unsure oracle.new }
    ensures same { taken.new ≡ taken.old }
{
    if taken.piece.meets_behind(taken.stood)? {
        return Ok(Known::Met);
    }
    let state = &taken.piece.get().state;
    let answer = oracle.ask(alloc, state.pool(), state.conditions())?;
    Ok(Known::Answered(answer))
}

/// The stop of an exploration whose oracle has stopped at the conditions of a piece.
pub(crate) fn stopped(alloc: Global, piece: &Piece, stop: OracleStop) -> DriveStop
    requires { AreTerms piece.now.state.nodes (path_roots piece.now.state Open) }
    ensures { IfOracle (λ i path. IsOf stop i × (path ≡ path_of_piece piece.now Open)) result }
{
    match stop {
        OracleStop::Bad(number) => match path_of(alloc, piece, Leaf::Open) {
            Ok(path) => DriveStop::Oracle(number, path.into_inner()),
            Err(_) => DriveStop::NoMemory,
        },
        OracleStop::NoMemory => DriveStop::NoMemory,
    }
}
