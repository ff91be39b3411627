//! A session: its lobby, that is what a host and those who join tell each other until their game begins; and
//! then its player's part in the game. No clock and no socket.
#![tactic(auto)]

mod calls;
mod coming;
mod cookies;
mod ending;
mod event;
mod fields;
mod greeting;
mod hinting;
mod host;
mod joiner;
mod keeping;
mod laws;
mod lead;
mod meetings;
mod part;
mod places;
mod players;
mod polling;
mod reading;
mod replies;
mod roster;
mod seats;
mod session;
mod side;
mod sorts;
mod steady;
mod terms;
mod ticks;
mod watch;
mod writing;

pub use cookies::FRESH_FOR;
pub use ending::{Ending, Over, Progress};
pub use event::Event;
pub use greeting::{
    Address, Call, GreetingFault, Hint, Hinted, Holder, Refusal, Refused, Seating, Shown,
};
pub use hinting::hinted_bytes;
pub use host::{Host, HostConfig};
pub use joiner::{JoinConfig, Joiner, Stage};
pub use keeping::sessions_keep;
pub use laws::{
    addresses_move_from_silence, begun_once, calls_without_a_cookie_change_nothing,
    greetings_are_no_envelopes, greetings_are_read_back, heard_is_the_time_of_a_cookie,
    joiners_act_when_due, no_ghost_plays, one_game_a_number, one_greeting,
    players_are_told_as_often_as_they_call, players_are_told_one_game, probes_answer_datagrams,
    replies_are_read_back, seated_joiners_heed_no_refusal,
};
pub use lead::{Seen, Standing, View, due, is_given_up};
pub use meetings::{sessions_play, sessions_stay};
pub use part::{Part, Transmit};
pub use places::{News, Place, Places, Probe, Spot};
pub use reading::{is_greeting, open, read_hinted};
pub use roster::{one_link_a_place, places_are_ones_own};
pub use seats::{Held, Seat};
pub use session::Session;
pub use side::{Begun, Side};
pub use sorts::Greeting;
pub use terms::{LobbyFault, Policy, Terms};
pub use ticks::Ticks;
pub use watch::Watch;
pub use writing::{greeter, seal};
