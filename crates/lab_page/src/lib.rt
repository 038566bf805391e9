//! Pages of judgements, in HTML.
//!
//! [`page`] is the subcommand of the program: it reads a history file, and writes one HTML file that shows the verdict
//! on its history, the reasons, and how to check it. The reader needs only a browser. The page has no scripts, and
//! loads nothing.
//!
//! `page_text` defines the page of a history and a report, with the picture of the report. `specs/` defines each
//! section, and a file here appends it. Every text of a file is escaped. Functions that allocate return `NoMemory` if
//! an allocation fails.
#![tactic(auto)]

mod below;
mod laws;
mod paging;
mod phrases;
mod tags;
mod whole;
mod why;
mod why_steps;

pub use laws::{
    a_title_stands_escaped_in_its_page, page_answer_unique, the_history_stands_in_its_page,
    the_picture_stands_in_its_page, the_report_stands_in_its_page,
    the_sentences_stand_in_their_page, what_is_escaped_has_no_markup,
    without_tags_a_sentence_is_as_it_was,
};
pub use paging::page;
