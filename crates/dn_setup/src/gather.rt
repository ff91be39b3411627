//! Whom the key player waits for before a game starts.

ghost use Rattle.std.specs.Prelude.{◌≡◌, ◌≤◌, ℕ, false, ◌&&◌, ◌||◌, ◌==◌};
ghost use Rattle.dn_setup.specs.Gathered.{is_noted, is_peer, all_noted};

use std::marker::Model;

/// The players of a game, and those whom the key player has heard.
#[derive(Debug, Drop)]
pub struct Gather {
    players: u8,
    noted: [bool; 4],
}

impl Model for Gather {
    ghost use Rattle.std.specs.Prelude.{◌≤◌};
    ghost use Rattle.dn_setup.specs.Gathered.{Gathered};

    ghost Value = { Gathered };

    ghost view = { λ g. record { players = g.players; noted = g.noted } };

    ghost invariant = { λ g. g.players ≤ 4 };
}

impl Gather {
    /// Nobody is heard yet.
    pub fn new(players: u8) -> Gather
        requires least { 2 ≤ players }
        requires most { players ≤ 4 }
        ensures players { result.players ≡ players }
        ensures nobody { (p : ℕ) → is_noted result p ≡ false }
    {
        Gather {
            players,
            noted: [false; 4],
        }
    }

    /// Notes a player other than the key player, and returns whether all of these are noted.
    pub fn hear(&mut self, player: u8) -> bool
        ensures players { self.new.players ≡ self.old.players }
        ensures noted { (p : ℕ) → is_noted self.new p
            ≡ (is_noted self.old p || (p == player && is_peer self.old.players p)) }
        ensures complete { result ≡ all_noted self.new.players (is_noted self.new) }
    {
        if 0 < player && player < self.players {
            self.noted[usize::from(player)] = true;
        }
        (1..self.players).all(|player| self.noted[usize::from(player)])
    }
}
