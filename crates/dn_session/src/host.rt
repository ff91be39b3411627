//! The host of a lobby.

ghost use Rattle.std.specs.Prelude.{◌≡◌, IfOk};
ghost use Rattle.dn_session.specs.Hosting.{game_told, holder_of, kicked, lobby, roster, IsHostOf, IsLobby};

use crate::cookies::{game_of, session_number};
use crate::seats::{Seat, held_by, number_in, seat_for};
use crate::terms::{LobbyFault, Terms, settings_fit, terms_fault};
use crate::writing::greeter;
use dn_seal::Sealer;

/// What a host is made with.
#[derive(Clone, Copy)]
pub struct HostConfig {
    /// The secret of those who may join. None for a game that anybody may join.
    pub secret: Option<[u8; 32]>,
    /// Random bytes that were drawn for this session and are told to nobody. Its number and its cookies follow
    /// from them.
    pub random: [u8; 32],
    /// What its player is called: UTF-8, filled up with zeros.
    pub name: [u8; 16],
    /// The terms of its game.
    pub terms: Terms,
}

/// The host of a lobby: who holds which seat, until each player was heard recently, and since the last of them
/// came. Then its game begins, with these players for good.
#[derive(Drop)]
pub struct Host {
    pub(crate) sealer: Sealer,
    pub(crate) random: [u8; 32],
    pub(crate) number: [u8; 16],
    pub(crate) name: [u8; 16],
    pub(crate) terms: Terms,
    pub(crate) seats: [Seat; 3],
    pub(crate) filled: u32,
    pub(crate) kicked: [Option<[u8; 16]>; 3],
    pub(crate) begun: bool,
}

impl Host {
    /// The host of a game of these terms, or the first fault of them.
    pub fn new(config: &HostConfig) -> Result<Host, LobbyFault>
        ensures made { IsHostOf config.now result }
        ensures fits { IfOk result (λ host. IsLobby (lobby host)) }
    {
        let terms = config.terms;
        if let Some(fault) = terms_fault(&terms) {
            return Err(fault);
        }
        settings_fit(&terms.settings);
        Ok(Host {
            sealer: greeter(config.secret),
            random: config.random,
            number: session_number(&config.random),
            name: config.name,
            terms,
            seats: [
                seat_for(terms.players, 1),
                seat_for(terms.players, 2),
                seat_for(terms.players, 3),
            ],
            filled: 0,
            kicked: [None; 3],
            begun: false,
        })
    }

    /// The terms.
    pub fn terms(&self) -> &Terms
        ensures { result.now ≡ (lobby self.now).terms }
    {
        &self.terms
    }

    /// The seats 1 to 3.
    pub fn seats(&self) -> &[Seat; 3]
        ensures { result.now ≡ (lobby self.now).seats }
    {
        &self.seats
    }

    /// The sessions that hold the seats 1 to 3, by their numbers, and zeros where nobody does.
    pub fn roster(&self) -> [[u8; 16]; 3]
        ensures { result ≡ roster (lobby self.now) }
    {
        let [one, two, three] = &self.seats;
        [number_in(one), number_in(two), number_in(three)]
    }

    /// The number of the game, once it has begun.
    pub fn game(&self) -> Option<[u8; 16]>
        ensures { result ≡ game_told (lobby self.now) }
    {
        if self.begun {
            Some(game_of(&self.sealer, &self.number, &self.terms, &self.roster()))
        } else {
            None
        }
    }

    /// Turns away the session of this number, if it holds a seat and the game has not begun. It gets none again
    /// until another was turned away from the same seat.
    pub fn kick(&mut self, number: &[u8; 16])
        ensures kicks { lobby self.new ≡ kicked number.now (lobby self.old) }
        ensures fits { IsLobby (lobby self.old) → IsLobby (lobby self.new) }
    {
        if self.begun {
            return;
        }
        if let Some(n) = held_by(number, &self.seats) {
            let mut kicked = self.kicked;
            kicked[n] = Some(*number);
            self.kicked = kicked;
            let mut seats = self.seats;
            seats[n] = Seat::Free;
            self.seats = seats;
        }
    }

    /// The session that holds a seat, 1 to 3, by its number, if one does.
    pub fn holder(&self, seat: u8) -> Option<[u8; 16]>
        ensures { result ≡ holder_of (lobby self.now) seat }
    {
        if seat < 1 || seat > 3 {
            return None;
        }
        match &self.seats[usize::from(seat - 1)] {
            Seat::Taken(held) => Some(held.holder.number),
            _ => None,
        }
    }
}
