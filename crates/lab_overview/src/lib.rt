//! The part of a page about the report: headline, tiles, levels and phenomena, picture, how to check the verdict, the
//! report and the history file.
//!
//! `specs/` defines each text, and a function here appends it. Every text of a file or of the user is escaped.
//! Functions that allocate return `NoMemory` if an allocation fails.
#![tactic(auto)]

mod check;
mod evidence;
mod figure;
mod head;
mod headline;
mod levels;
mod meanings;
mod phrases;
mod sentences;
mod style;
mod tags;
mod tiles;

pub use check::put_check;
pub use evidence::{put_history, put_report};
pub use figure::put_figure;
pub use head::{put_head, put_header};
pub use levels::put_levels;
pub use sentences::put_led;
