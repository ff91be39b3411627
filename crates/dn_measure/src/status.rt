//! The line that is printed each second of play.

ghost use Rattle.std.specs.{Prelude.◌≡◌, Prelude.◌++◌, Prelude.OnOk, Prelude.IfOk, String.string_bytes};
ghost use Rattle.dn_measure.specs.{StatusLine.rate_text, StatusLine.waiting_text, StatusLine.refused_text, StatusLine.standing_text, StatusLine.status_line, Fields.if_there, Fields.of_each};

use crate::arrivals::Arrivals;
use crate::fields::{push_each, push_fields, push_tenths};
use crate::runs::tenths_a_second;
use crate::text::push_flaws;
use std::alloc::{AllocError, Global};

/// How a player stands.
#[derive(Clone, Copy, Debug, PartialEq, Eq)]
pub struct PeerStatus {
    /// By how many commands this player leads that one.
    pub lead: i8,
    /// What came from that player since the game began.
    pub arrivals: Arrivals,
}

/// How the game stands.
#[derive(Clone, Copy, Debug, PartialEq, Eq)]
pub struct Status {
    /// How many tics were run since the line before,
    pub tics: u64,
    /// in how many microseconds.
    pub micros: u64,
    /// For which player's command the next tic waits, if it waits for one.
    pub waiting: Option<u8>,
    /// How often bytes came that were no datagram.
    pub refused: u32,
    /// How each other player stands, and None for this player and for a number that is no player's.
    pub peers: [Option<PeerStatus>; 4],
}

/// For whom the game waits.
fn push_waiting(text: &mut String, waiting: Option<u8>) -> Result<(), AllocError>
    ensures { OnOk result (string_bytes text.new ≡ string_bytes text.old ++ waiting_text waiting) }
{
    match waiting {
        Some(player) => push_fields(text, &[(" waiting ", player as i128)]),
        None => Ok(()),
    }
}

/// How a player stands, and nothing for a number that is no player's.
#[tactic(auto, unfolding(crate::specs::StatusLine::standing_text))]
fn push_peer(text: &mut String, player: u8, peer: Option<PeerStatus>) -> Result<(), AllocError>
    ensures { OnOk result (string_bytes text.new ≡ string_bytes text.old ++ if_there standing_text player peer) }
{
    let Some(status) = peer else {
        return Ok(());
    };
    push_fields(
        text,
        &[
            (" player ", player as i128),
            (" lead ", status.lead as i128),
        ],
    )?;
    push_flaws(text, &status.arrivals)
}

/// How each player stands.
fn push_peers(text: &mut String, peers: [Option<PeerStatus>; 4]) -> Result<(), AllocError>
    ensures { OnOk result (string_bytes text.new ≡ string_bytes text.old ++ of_each standing_text 0 peers) }
{
    push_each!(text, peers, push_peer)
}

/// The line of how the game stands. Err where memory is refused.
#[tactic(auto, unfolding(crate::specs::StatusLine::rate_text, crate::specs::StatusLine::refused_text))]
pub fn text_of_status(alloc: Global, status: &Status) -> Result<String, AllocError>
    ensures { IfOk result (λ text. string_bytes text ≡ status_line status.now) }
{
    let mut text = String::new(alloc);
    push_tenths(
        &mut text,
        "rate ",
        tenths_a_second(status.tics, status.micros),
    )?;
    push_waiting(&mut text, status.waiting)?;
    push_fields(&mut text, &[(" refused ", status.refused as i128)])?;
    push_peers(&mut text, status.peers)?;
    text.push_str("\n")?;
    Ok(text)
}
