//! What people ask of demos and of files: what a file is, which lumps a WAD has, and what players did in a demo.
#![tactic(auto)]

mod difference;
mod formats;
mod json;
mod objects;
mod reading;
mod rows;
mod scripts;
mod tally;
mod telling;
mod wad;
mod writing;

pub use difference::{Difference, first_difference};
pub use formats::format_of;
pub use json::{json_of_lump, json_of_stats};
pub use objects::{front_of_objects, push_object};
pub use reading::{WadFault, lumps, open};
pub use rows::{RowsFault, demo_of_rows};
pub use scripts::text_of_bad_event;
pub use tally::{Counts, Tally};
pub use telling::text_of_stats;
pub use wad::{Directory, ENTRY, HEADER, Lump};
pub use writing::{Head, Row, bytes_of};

#[cfg(test)]
mod tests;
