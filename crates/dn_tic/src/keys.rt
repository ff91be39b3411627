//! The keys of a player, and which of them are down.

ghost use Rattle.std.specs.Prelude.{◌≡◌, ◌<◌, ◌%◌, ◌^◌};
ghost use Rattle.dn_tic.specs.Pressed.{place_of, is_down};

use std::marker::Model;

/// A key that a command depends on.
#[derive(Clone, Copy, Debug, PartialEq, Eq)]
pub enum Key {
    /// Goes forward.
    Forward,
    /// Goes back.
    Back,
    /// Turns left; with `Strafe`, goes left.
    Left,
    /// Turns right; with `Strafe`, goes right.
    Right,
    /// Goes left.
    StrafeLeft,
    /// Goes right.
    StrafeRight,
    /// Makes the turn keys go to the sides.
    Strafe,
    /// Runs.
    Speed,
    /// Fires.
    Attack,
    /// Opens doors and presses switches.
    Use,
    /// Takes up weapon 1.
    Weapon1,
    /// Takes up weapon 2.
    Weapon2,
    /// Takes up weapon 3.
    Weapon3,
    /// Takes up weapon 4.
    Weapon4,
    /// Takes up weapon 5.
    Weapon5,
    /// Takes up weapon 6.
    Weapon6,
    /// Takes up weapon 7.
    Weapon7,
    /// Takes up weapon 8.
    Weapon8,
}

impl Key {
    /// The bit of a key state that this key has.
    pub(crate) fn place(self) -> u32
        ensures place { result ≡ place_of self }
        ensures small { result < 18 }
    {
        self as u32
    }
}

/// The keys that are down. A contract sees them as a number below 2^18, with a bit for each key in
/// the order of [`Key`].
#[derive(Clone, Copy, Debug, PartialEq, Eq, Default)]
pub struct Keys {
    bits: u32,
}

impl Model for Keys {
    ghost use Rattle.std.specs.Prelude.{ℕ, ◌<◌, ◌^◌};

    ghost Value = { ℕ };

    ghost view = { λ k. k.bits };

    ghost invariant = { λ k. k.bits < 2 ^ 18 };

    ghost inverse = { λ n. record { bits = n } };
}

impl Keys {
    /// The keys whose bits are set. Bits from 18 on stand for no key.
    pub fn from_bits(bits: u32) -> Keys
        ensures { result ≡ bits % 2 ^ 18 }
    {
        Keys {
            bits: bits % (1 << 18),
        }
    }

    /// The bits of the keys that are down.
    pub fn bits(&self) -> u32
        ensures value { result ≡ self.now }
        ensures below { result < 2 ^ 18 }
    {
        self.bits
    }

    /// Whether the key is down.
    pub fn is_down(&self, key: Key) -> bool
        ensures { result ≡ is_down self.now key }
    {
        (self.bits >> key.place()) % 2 == 1
    }
}
