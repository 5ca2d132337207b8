//! The paths of pieces, and the inputs that they carry.
ghost use Rattle.std.specs.Prelude.{◌≡◌, IfOk, OnOk};
ghost use Rattle.kb_terms.specs.Terms.{AreTerms};
ghost use Rattle.kb_picture.specs.declared.path.Leaf.TheVariants.{Cut, Ended as EndedLeaf};
ghost use Rattle.kb_frames.specs.Paths.{path_roots};
ghost use Rattle.kb_drive.specs.Values.{followed_by_zeros};
ghost use Rattle.kb_drive.specs.Following.{input_of_piece, path_of_piece};
ghost use Rattle.kb_frames_laws.specs.Endings.{ended_in};
ghost use Rattle.kb_stated.specs.Stated.{made_of, writes_of};

use crate::NoMemory;
use crate::piece::Piece;
use kb_frames::SymState;
use kb_heap::{Bound, Input};
use kb_input::input_of;
use kb_picture::{Ended, Leaf, Made, Path, SymEnding, Write};
use kb_rows::{Held, Row};
use kb_stated::{made, writes};
use kb_world::World;
use std::alloc::Global;

/// The path of a piece with that leaf, whose terms have their numbers in the state's pool.
pub(crate) fn path_of(alloc: Global, piece: &Piece, leaf: Leaf) -> Result<Held<Path>, NoMemory>
    requires { AreTerms piece.now.state.nodes (path_roots piece.now.state leaf) }
    ensures { IfOk result (λ path. path ≡ path_of_piece piece.now leaf) }
{
    match piece.state.path(piece.decisions.as_slice(), leaf) {
        Ok(path) => Held::new(alloc, path),
        Err(_) => Err(NoMemory),
    }
}

/// The path of a piece whose runs end so.
pub(crate) fn ended_path(
    alloc: Global,
    world: &World,
    piece: &Piece,
    ending: SymEnding,
) -> Result<Held<Path>, NoMemory>
    requires { AreTerms piece.now.state.nodes (path_roots piece.now.state (EndedLeaf (ended_in piece.now.state ending (input_of_piece world.now piece.now)))) }
    ensures { IfOk result (λ path. path ≡ path_of_piece piece.now (EndedLeaf (ended_in piece.now.state ending (input_of_piece world.now piece.now)))) }
{
    let ended = ended_in(alloc, world, piece, ending)?;
    path_of(alloc, piece, Leaf::Ended(ended))
}

// An ending, with what the state keeps as written and as made, and the input of the piece.
fn ended_in(
    alloc: Global,
    world: &World,
    piece: &Piece,
    ending: SymEnding,
) -> Result<Ended, NoMemory>
    ensures { IfOk result (λ ended. ended ≡ ended_in piece.now.state ending (input_of_piece world.now piece.now)) }
{
    let left = left_by(alloc, &piece.state)?;
    let input = input_of_piece(alloc, world, piece)?;
    Ok(Ended {
        ending,
        writes: left.writes,
        made: left.made,
        input,
    })
}

// What a state keeps as written, and what as made.
#[derive(Drop)]
pub(crate) struct Left {
    writes: Row<Write>,
    made: Row<Made>,
}

fn left_by(alloc: Global, state: &SymState) -> Result<Left, NoMemory>
    ensures { IfOk result (λ left. left ≡ record { writes = writes_of state.now; made = made_of state.now }) }
{
    let writes = writes(alloc, state)?;
    let made = made(alloc, state)?;
    Ok(Left { writes, made })
}

/// The path of a piece whose inputs, or their runs, go beyond the bound.
pub(crate) fn cut_path(
    alloc: Global,
    world: &World,
    piece: &Piece,
    bound: Bound,
) -> Result<Held<Path>, NoMemory>
    requires { AreTerms piece.now.state.nodes (path_roots piece.now.state (Cut bound (input_of_piece world.now piece.now))) }
    ensures { IfOk result (λ path. path ≡ path_of_piece piece.now (Cut bound (input_of_piece world.now piece.now))) }
{
    let input = input_of_piece(alloc, world, piece)?;
    path_of(alloc, piece, Leaf::Cut(bound, input))
}

// The input of a piece, for its values, followed by 0s.
fn input_of_piece(alloc: Global, world: &World, piece: &Piece) -> Result<Input, NoMemory>
    ensures { IfOk result (λ input. input ≡ input_of_piece world.now piece.now) }
{
    let state = &piece.state;
    let count = state.pool().variables() as usize;
    let values = all_values(alloc, piece.values.as_slice(), count)?;
    let input = input_of(
        alloc,
        world,
        state.method(),
        state.picture(),
        values.as_slice(),
    )?;
    Ok(input)
}

// These values, and 0 for each further one up to so many.
fn all_values(alloc: Global, values: &[i32], count: usize) -> Result<Vec<i32>, NoMemory>
    ensures { IfOk result (λ all. all.items ≡ followed_by_zeros count values.now) }
{
    let mut all = values.to_vec(alloc)?;
    add_zeros(&mut all, count)?;
    Ok(all)
}

// Adds 0s, up to so many values.
fn add_zeros(values: &mut Vec<i32>, count: usize) -> Result<(), NoMemory>
    ensures { OnOk result (values.new.items ≡ followed_by_zeros count values.old.items) }
{
    if values.len() < count {
        values.resize(count, 0)?;
    }
    Ok(())
}
