//! Texts are read, line by line.

ghost use Rattle.std.specs.Prelude.{◌≡◌, None, Some, IfOk, MatchOption, option_map};
ghost use Rattle.kb_asm_text.specs.declared.line.Line.{Line};
ghost use Rattle.kb_asm_text.specs.declared.place.Place.{Place as PlaceTo};
ghost use Rattle.kb_asm_text.specs.Lines.{SpellsLine};
ghost use Rattle.kb_asm_text.specs.Texts.{next_place as place_next, IsLongestFront};

use crate::NoMemory;
use crate::line::Line;
use crate::place::{Place, next_place};
use crate::reading::read_line;
use kb_grammar::cut;
use kb_rows::Row;
use std::alloc::Global;

/// The lines of a text up to the first one that does not fit.
#[derive(Drop)]
pub struct Front {
    pub lines: Row<Line>,
    /// Where they lead.
    pub place: Place,
    /// Whether nothing stands behind them.
    pub ended: bool,
}

/// What leads somewhere, with where that is. Of any type, so that its proof knows nothing of lines.
fn with_place<T: Drop>(item: T, place: Option<Place>) -> Option<(T, Place)>
    ensures { result ≡ option_map (λ (next : PlaceTo). (item, next)) place }
{
    match place {
        Some(next) => Some((item, next)),
        None => None,
    }
}

/// The line that the text spells, and where it leads, if it may stand there.
fn next_line(alloc: Global, place: Place, text: &[u8]) -> Result<Option<(Line, Place)>, NoMemory>
    ensures { IfOk result (λ read. MatchOption read
        ((line : Line) → SpellsLine line text.now → place_next place line ≡ None)
        (λ p. SpellsLine p.0 text.now × (place_next place p.0 ≡ Some p.1))) }
{
    let Some(line) = read_line(alloc, text)? else {
        return Ok(None);
    };
    let next = next_place(place, &line);
    Ok(with_place(line, next))
}

/// The lines of the text up to the first one that does not fit: that spells no line, is cut short, or may not stand there.
pub fn read_front(alloc: Global, text: &[u8]) -> Result<Front, NoMemory>
    ensures { IfOk result (λ front. IsLongestFront front text.now) }
{
    let mut lines = Row::new(alloc);
    let mut place = Place::Start;
    let mut rest = text;
    while let Some((line, others)) = cut(rest, b'\n') {
        let Some((read, next)) = next_line(alloc, place, line)? else {
            return Ok(Front {
                lines,
                place,
                ended: false,
            });
        };
        lines.push(read)?;
        place = next;
        rest = others;
    }
    Ok(Front {
        lines,
        place,
        ended: rest.is_empty(),
    })
}
