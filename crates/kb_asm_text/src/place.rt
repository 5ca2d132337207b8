//! Which line may stand behind which.

ghost use Rattle.std.specs.Prelude.{◌≡◌};
ghost use Rattle.kb_asm_text.specs.Texts.{place_of_method, next_place};

use crate::line::{Line, Sizes};

/// Where the lines of a class lead.
#[derive(Clone, Copy, Debug, PartialEq, Eq)]
pub enum Place {
    /// Before the line of the class.
    Start,
    /// Behind it, and behind superinterfaces.
    Head,
    /// Behind a field.
    Fields,
    /// Behind a method.
    Methods,
    /// In the body of a method.
    Body,
}

/// Where the first line of a method leads.
fn place_of_method(sizes: Option<Sizes>) -> Place
    ensures { result ≡ place_of_method sizes }
{
    match sizes {
        Some(_) => Place::Body,
        None => Place::Methods,
    }
}

/// Where that line leads, if it may stand there.
pub(crate) fn next_place(place: Place, line: &Line) -> Option<Place>
    ensures { result ≡ next_place place line.now }
{
    match line {
        Line::Class(_) => match place {
            Place::Start => Some(Place::Head),
            _ => None,
        },
        Line::Implements(_) => match place {
            Place::Head => Some(Place::Head),
            _ => None,
        },
        Line::Field(_) => match place {
            Place::Head | Place::Fields => Some(Place::Fields),
            _ => None,
        },
        Line::Method(head) => match place {
            Place::Head | Place::Fields | Place::Methods => Some(place_of_method(head.sizes)),
            _ => None,
        },
        Line::Body(_) => match place {
            Place::Body => Some(Place::Body),
            _ => None,
        },
        Line::End => match place {
            Place::Body => Some(Place::Methods),
            _ => None,
        },
    }
}
