//! Datagrams in envelopes that only the players of a game can make: HMAC-SHA-256, sealing and opening.
#![tactic(auto)]

mod appending;
mod laws;
mod mac;
mod opened;
mod seal;
mod sealer;

pub use appending::append;
pub use laws::every_list_is_opened;
pub use mac::hmac;
pub use opened::{Opened, SealFault};
pub use seal::{Seal, Suite};
pub use sealer::{MAX_ENVELOPE, OVERHEAD, Sealer, ask_bytes, ask_in, tic_at};
