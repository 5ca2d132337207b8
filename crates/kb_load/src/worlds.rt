//! The worlds of the class files in a program's folder, and rows that ask about them.
ghost use Rattle.std.specs.Prelude.{◌≡◌, map, string_bytes, IfOk};
ghost use Rattle.kb_load.specs.Worlds.{IsWorldIn, IsWorldOf, contents_of};

use crate::world_of;
use kb_outside::{Shelf, Sink};
use kb_rows::Held;
use kb_table::{RowResult, RowStop, Rows, read_files, read_words};
use kb_world::World;
use std::alloc::Global;

/// The world of the class files of these names, in order. Where there is none, the row that names them asks for nothing.
pub fn read_world<S: Shelf>(
    alloc: Global,
    names: &[String],
    shelf: &mut S,
) -> RowResult<Held<World>>
    ensures { IfOk result (IsWorldIn (S.holds shelf.old) (map string_bytes names.now)) }
{
    let files = read_files(alloc, names, shelf)?;
    held_world_of(alloc, files.as_slice())
}

// The world of these class files, in a box.
fn held_world_of(alloc: Global, files: &[Vec<u8>]) -> RowResult<Held<World>>
    ensures { IfOk result (IsWorldOf (contents_of files.now)) }
{
    match world_of(alloc, files) {
        Some(world) => held(alloc, world),
        None => Err(RowStop::Malformed),
    }
}

fn held(alloc: Global, world: World) -> RowResult<Held<World>>
    ensures { IfOk result (λ held. held ≡ world) }
{
    Ok(Held::new(alloc, world)?)
}

/// What a program makes of the rows of a table that ask about a world, one after the other.
pub trait WorldRows {
    /// Writes what a row comes to in its world.
    fn write_in_world<W: Sink>(
        &mut self,
        alloc: Global,
        world: &World,
        row: &str,
        out: &mut W,
    ) -> RowResult<()>;
}

/// Rows with the world that they ask about. A row `files` with the names of class files gives the world of the rows behind it.
#[derive(Drop)]
pub struct InWorlds<R> {
    pub rows: R,
    pub world: Option<Held<World>>,
}

impl<R: WorldRows> Rows for InWorlds<R> {
    fn write_row<S: Shelf, W: Sink>(
        &mut self,
        alloc: Global,
        row: &str,
        shelf: &mut S,
        out: &mut W,
    ) -> RowResult<()> {
        match row.strip_prefix("files ") {
            Some(names) => enter(alloc, names, &mut self.world, shelf),
            None => write_in(alloc, &self.world, row, &mut self.rows, out),
        }
    }
}

// The world of the class files of these names is the one of the rows that follow.
fn enter<S: Shelf>(
    alloc: Global,
    names: &str,
    world: &mut Option<Held<World>>,
    shelf: &mut S,
) -> RowResult<()> {
    let names = read_words(alloc, names, ' ')?;
    *world = Some(read_world(alloc, names.as_slice(), shelf)?);
    Ok(())
}

fn write_in<R: WorldRows, W: Sink>(
    alloc: Global,
    world: &Option<Held<World>>,
    row: &str,
    rows: &mut R,
    out: &mut W,
) -> RowResult<()> {
    match world {
        Some(world) => rows.write_in_world(alloc, world.get(), row, out),
        None => Err(RowStop::Malformed),
    }
}
