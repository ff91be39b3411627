//! Scripts: lists of events as text, read and written.

mod line;
mod reading;
mod words;
mod written;

pub use reading::{MAX_SCRIPT, ScriptFault, read_script};
pub use written::{push_event, push_event_line, written_scripts_are_read};
