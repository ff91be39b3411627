//! What a session measures: how many tics it runs, how steadily, how soon a key is felt, and what each line
//! loses; whether such a line carries a game of four; and the lines that are printed of it. It has no clock:
//! times are microseconds that the caller gives.
#![tactic(auto)]

mod arrivals;
mod end;
mod felt;
mod fields;
mod histogram;
mod lacking;
mod laws;
mod measure;
mod runs;
mod status;
mod text;
mod verdict;

pub use arrivals::Arrivals;
pub use end::{End, SILENCE, text_of_session};
pub use felt::Felt;
pub use fields::{push_fields, push_line};
pub use laws::keys_are_timed_in_order;
pub use measure::{Measure, Summary, Told};
pub use status::{PeerStatus, Status, text_of_status};
pub use text::text_of_summary;
pub use verdict::{Lack, MOST_LACKS, carries, lacks_of};
