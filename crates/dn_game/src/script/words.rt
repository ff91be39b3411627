//! The words of a script's lines.

ghost use Rattle.std.specs.Prelude.{◌≡◌, ◌<◌, ℕ, IfSome, MatchOption};
ghost use Rattle.dn_game.specs.Scripts.{IsNumber, AreKeys, place_in_letters};

use dn_tic::Keys;

/// The letters of the keys, in the order of their bits.
pub(crate) const LETTERS: [u8; 18] = *b"fblradtsxu12345678";

/// The most digits of a number: any nine fit into 32 bits.
const MOST_DIGITS: usize = 9;

/// The number that a word is.
pub(crate) fn number(word: &[u8]) -> Option<u32>
    ensures { MatchOption result ((n : ℕ) → ¬ IsNumber word.now n) (IsNumber word.now) }
{
    if word.is_empty() || word.len() > MOST_DIGITS {
        return None;
    }
    let mut number = 0;
    for byte in word {
        if !byte.is_ascii_digit() {
            return None;
        }
        number = 10 * number + u32::from(*byte - b'0');
    }
    Some(number)
}

/// The bit of a letter's key.
fn place(byte: u8) -> Option<usize>
    ensures value { result ≡ place_in_letters byte }
    ensures small { IfSome result (λ place. place < 18) }
{
    LETTERS.iter().position(|letter| *letter == byte)
}

/// The keys that a word is.
pub(crate) fn keys(word: &[u8]) -> Option<Keys>
    ensures { MatchOption result ((k : ℕ) → ¬ AreKeys word.now k) (AreKeys word.now) }
{
    if word == b"-".as_slice() {
        return Some(Keys::from_bits(0));
    }
    if word.is_empty() {
        return None;
    }
    let mut bits = 0;
    for byte in word {
        let place = place(*byte)?;
        bits |= 1 << place;
    }
    Some(Keys::from_bits(bits))
}
