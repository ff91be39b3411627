//! What the keys of one build give: moves, a turn and buttons.

ghost use Rattle.std.specs.{Prelude.◌≡◌, Prelude.◌≤◌, Prelude.◌≤ℤ◌, Prelude.◌+ℤ◌, Prelude.pos, Prelude.negsuc, List.position, List.position_or_len};
ghost use Rattle.dn_tic.specs.Pressed.{is_down, opposed, forward_amount, side_amount, turn_amount, strafed, turned, buttons_of, weapons, weapon_buttons, clamped};

use crate::keys::{Key, Keys};

/// The turn hold from which on turns are fast; it counts no further.
pub(crate) const FAST_TURNS: u8 = 6;

/// The farthest that one tic goes forward or to a side.
const FARTHEST: i16 = 50;

const ATTACK: u8 = 1;

const USE: u8 = 2;

/// The button bit of a change of weapon (`d_event.h`, BT_CHANGE).
const CHANGE: u8 = 4;

/// The next weapon's place, in the bits above it.
const NEXT_WEAPON: u8 = 8;

/// How many weapon keys there are.
const WEAPONS: u8 = 8;

/// What a pair of opposite keys gives.
fn opposed(keys: Keys, more: Key, less: Key, amount: i16) -> i16
    requires least { pos 0 ≤ℤ amount }
    requires most { amount ≤ℤ pos 1280 }
    ensures value { result ≡ opposed keys more less amount }
    ensures low { pos 0 ≤ℤ (result +ℤ amount) }
    ensures high { result ≤ℤ amount }
{
    // A product, where branches on keys would be guessed wrongly.
    (i16::from(keys.is_down(more)) - i16::from(keys.is_down(less))) * amount
}

fn forward_amount(keys: Keys) -> i16
    ensures value { result ≡ forward_amount keys }
{
    if keys.is_down(Key::Speed) { 50 } else { 25 }
}

fn side_amount(keys: Keys) -> i16
    ensures value { result ≡ side_amount keys }
    ensures most { result ≤ℤ pos 40 }
{
    if keys.is_down(Key::Speed) { 40 } else { 24 }
}

fn turn_amount(keys: Keys, hold: u8) -> i16
    ensures value { result ≡ turn_amount keys hold }
{
    if hold < FAST_TURNS {
        320
    } else if keys.is_down(Key::Speed) {
        1280
    } else {
        640
    }
}

/// How far the keys go forward.
pub(crate) fn forward_move(keys: Keys) -> i8
    ensures value { result ≡ clamped (opposed keys Key.Forward Key.Back (forward_amount keys)) }
    ensures least { negsuc 49 ≤ℤ result }
    ensures most { result ≤ℤ pos 50 }
{
    opposed(keys, Key::Forward, Key::Back, forward_amount(keys)).clamp(-FARTHEST, FARTHEST) as i8
}

/// The side move of the turn keys while strafe is down.
fn strafed(keys: Keys) -> i16
    ensures value { result ≡ strafed keys }
    ensures low { negsuc 39 ≤ℤ result }
    ensures high { result ≤ℤ pos 40 }
{
    i16::from(keys.is_down(Key::Strafe)) * opposed(keys, Key::Right, Key::Left, side_amount(keys))
}

/// How far the keys go to the right.
pub(crate) fn side_move(keys: Keys) -> i8
    ensures { result ≡ clamped (strafed keys +ℤ opposed keys Key.StrafeRight Key.StrafeLeft
        (side_amount keys)) }
{
    let side = strafed(keys) + opposed(keys, Key::StrafeRight, Key::StrafeLeft, side_amount(keys));
    side.clamp(-FARTHEST, FARTHEST) as i8
}

/// How far the keys turn left, at this turn hold.
pub(crate) fn turn(keys: Keys, hold: u8) -> i16
    ensures { result ≡ turned keys hold }
{
    i16::from(!keys.is_down(Key::Strafe))
        * opposed(keys, Key::Left, Key::Right, turn_amount(keys, hold))
}

/// The place of the lowest weapon key that is down, and their number where none is.
#[tactic(auto, using(crate::proofs::Making::lowest_weapon))]
fn lowest_weapon(keys: Keys) -> u8
    ensures { result ≡ position_or_len (is_down keys) weapons }
{
    // The zeros below its bit, where a search of the keys would be guessed wrongly.
    let weapons = (keys.bits() >> Key::Weapon1.place()) as u8;
    weapons.trailing_zeros() as u8
}

/// What the lowest weapon key that is down adds to the buttons.
fn weapon_buttons(keys: Keys) -> u8
    ensures value { result ≡ weapon_buttons (position (is_down keys) weapons) }
    ensures small { result ≤ 60 }
{
    let place = lowest_weapon(keys);
    if place < WEAPONS {
        CHANGE + NEXT_WEAPON * place
    } else {
        0
    }
}

/// Attack, use, and a change of weapon.
pub(crate) fn buttons(keys: Keys) -> u8
    ensures { result ≡ buttons_of keys }
{
    let attack = if keys.is_down(Key::Attack) { ATTACK } else { 0 };
    let operate = if keys.is_down(Key::Use) { USE } else { 0 };
    attack + operate + weapon_buttons(keys)
}
