//! Changes to a list of cells that can be undone.
//!
//! `specs/Trail.antt` says what undoing does, `specs/Changes.antt` what it does after any changes.
#![tactic(auto)]

mod laws;
mod trail;

pub use laws::{first_entry_decides, undoing_leads_back};
pub use trail::{Trail, TrailFull};
