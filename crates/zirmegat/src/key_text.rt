//! The text of a key, as a file has it.

ghost use Rattle.std.specs.Prelude.{◌≡◌};
ghost use Rattle.zirmegat.specs.KeyTexts.{is_zeros, key_of_digits, key_read, key_text, IsKeyRead};

use crate::fault::{DONE, Fault};

/// How many bytes a key has.
const KEY: usize = 32;

/// How many bytes its text has.
const KEY_TEXT: usize = 65;

/// Whether a key has nothing but zeros.
fn is_zeros(key: &[u8]) -> bool
    ensures { result ≡ is_zeros key.now }
{
    key.iter().all(|byte| *byte == 0)
}

/// The key whose digits these are, of either case.
fn key_of_digits(digits: &[u8]) -> Result<[u8; KEY], Fault>
    ensures { result ≡ key_of_digits digits.now }
{
    let mut key = [0; KEY];
    match hex::decode_to_slice(digits, &mut key) {
        Ok(()) if is_zeros(&key) => Err(Fault::Key),
        Ok(()) => Ok(key),
        Err(_) => Err(Fault::Text),
    }
}

/// The key whose text this is.
fn key_in(text: &[u8]) -> Result<[u8; KEY], Fault>
    ensures { result ≡ key_read text.now }
{
    match text.split_last() {
        Some((b'\n', digits)) => key_of_digits(digits),
        _ => Err(Fault::Text),
    }
}

/// Reads the text of a key: 64 digits and a line end.
#[unsafe(no_mangle)]
pub extern "C" fn zmg_key_from_text(key: &mut [u8; KEY], text: &[u8]) -> u32
    ensures { IsKeyRead (key_read text.now) key.old key.new result }
{
    match key_in(text) {
        Ok(read) => {
            *key = read;
            DONE
        }
        Err(fault) => fault.code(),
    }
}

/// Writes the text of a key, in lower case.
#[unsafe(no_mangle)]
pub extern "C" fn zmg_key_to_text(key: &[u8; KEY], text: &mut [u8; KEY_TEXT])
    ensures { text.new ≡ key_text key.now }
{
    let mut written = [b'\n'; KEY_TEXT];
    let done = hex::encode_to_slice(&key[..], &mut written[..64]);
    prove!(done.is_ok());
    *text = written;
}
