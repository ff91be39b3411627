//! What may happen to the engines of a table, and what is answered.

use dn_machine::Ran;
use dn_session::Address;
use dn_tic::Input;

/// A call of an engine on its session.
#[derive(Clone, Copy, Debug, PartialEq, Eq)]
pub enum Call<'a> {
    /// `Session::poll`.
    Poll,
    /// `Session::give`.
    Give(Input),
    /// `Session::run`; its world is stepped by the row.
    Run,
    /// `Session::transmit`.
    Send,
    /// `Session::receive`: bytes come, as from this address.
    Hear { from: Address, bytes: &'a [u8] },
    /// `Session::give_up`.
    GiveUp(u8),
    /// `Session::quit`.
    Quit,
}

/// What a call answers.
#[derive(Clone, Copy, Debug, PartialEq, Eq)]
pub enum Done {
    /// It answers nothing.
    Done,
    /// Whether the game began.
    Begun(bool),
    /// Whether a tick was due.
    Given(bool),
    /// What `Session::run` answers. None where there was no room for the row, and nothing was called.
    Ran(Option<Ran>),
    /// Where the datagram goes, if there was one.
    Sent(Option<Address>),
    /// Whether the other was given up.
    GivenUp(bool),
}

/// What happens at a table.
#[derive(Clone, Copy, Debug, PartialEq, Eq)]
pub enum Step {
    /// The engine begins its game, once the host's has begun.
    Begin,
    /// `Call::Poll`, and so on.
    Poll,
    Give(Input),
    Run,
    Send,
    GiveUp(u8),
    Quit,
    /// The datagram that was given as this one, counted from 0, comes to the engine, as from this address.
    Hear { which: u32, from: Address },
}

/// A step of an engine, at a time of its own clock.
#[derive(Clone, Copy, Debug, PartialEq, Eq)]
pub struct Event {
    /// The place of the engine, which is the number of its player.
    pub player: u8,
    /// The time.
    pub now: u32,
    /// What happens.
    pub step: Step,
}

/// Why nothing happens.
#[derive(Clone, Copy, Debug, PartialEq, Eq)]
pub enum Refusal {
    /// No engine has this place.
    NoEngine,
    /// No datagram has this number.
    NoDatagram,
    /// The host's game has not begun, or it has another number of players than there are engines.
    NoGame,
    /// There is no memory for the game.
    Memory,
}
