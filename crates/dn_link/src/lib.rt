//! The link of a lockstep: what goes to each peer in one sealed datagram, and what comes in one.
#![tactic(auto)]

mod bundle;
mod caught_up;
mod congestion;
mod counting;
mod differences;
mod ends;
mod giving;
mod hearing;
mod kept;
mod lag;
mod laws;
mod leaning;
mod level;
mod line;
mod link;
mod onward;
mod overdue;
mod pace;
mod packing;
mod peer;
mod reading;
mod received;
mod relaying;
mod remaining;
mod resting;
mod room;
mod short;
mod stretching;
mod tally;
mod trimming;
mod trip;
mod writing;

pub use bundle::{Bundle, BundleFault, Carried, Counts, Part, Relay, Run};
pub use caught_up::{
    caught_up_links_cover, links_bring_all, links_open_caught_up, links_run_on,
    links_stay_caught_up,
};
pub use ends::PROBE;
pub use laws::bundles_are_read_back;
pub use link::Link;
pub use onward::{given_is_covered, kept_covers};
pub use reading::open_bundle;
pub use received::Received;
pub use remaining::{
    acknowledged_is_there, leaving_is_safe, links_have_windows, remaining_bytes_are_genuine,
    remaining_links_agree, remaining_links_go_on, remaining_links_start,
};
pub use resting::players_rest_briefly;
pub use tally::Figures;
pub use writing::seal_bundle;
