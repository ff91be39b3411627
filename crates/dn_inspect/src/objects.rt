//! Lines as JSON: those that are labels, each with a number behind it.

use serde_json::json;
use std::alloc::{AllocError, Global};

/// What each object of a file's lines begins with: the file.
pub fn front_of_objects(alloc: Global, file: &str) -> Result<Vec<u8>, AllocError> {
    let value = json!(in alloc; { "file": file })?;
    let text = value.to_string(alloc)?;
    let mut front = Vec::from_slice(alloc, text.as_bytes())?;
    // the brace that closes it
    front.pop();
    Ok(front)
}

/// Where the next number stands.
#[derive(Clone, Copy, Debug, PartialEq, Eq)]
enum Place {
    /// Behind its label.
    Alone,
    /// The first of a list.
    First,
    /// Behind others of a list.
    Later,
}

/// Whether a word is a number.
fn is_number(word: &[u8]) -> bool {
    match word.first() {
        Some(byte) => *byte == b'-' || byte.is_ascii_digit(),
        None => false,
    }
}

/// Appends the end of a list, if one is open.
fn close(text: &mut Vec<u8>, place: Place) -> Result<(), AllocError> {
    match place {
        Place::Alone => Ok(()),
        Place::First | Place::Later => text.extend_from_slice(b"]"),
    }
}

/// Appends a label, with which a member begins, and returns where its number stands.
fn push_label(text: &mut Vec<u8>, label: &[u8]) -> Result<Place, AllocError> {
    text.extend_from_slice(b",\"")?;
    text.extend_from_slice(label)?;
    text.extend_from_slice(b"\":")?;
    if label != b"players".as_slice() {
        return Ok(Place::Alone);
    }
    text.extend_from_slice(b"[")?;
    Ok(Place::First)
}

/// Appends a number, and returns where the next one stands.
fn push_number(text: &mut Vec<u8>, place: Place, word: &[u8]) -> Result<Place, AllocError> {
    if place == Place::Later {
        text.extend_from_slice(b",")?;
    }
    text.extend_from_slice(word)?;
    if place == Place::Alone {
        Ok(Place::Alone)
    } else {
        Ok(Place::Later)
    }
}

/// Appends the object of a line, behind what it begins with: a member for each label, and for `players` the list of
/// the numbers behind it.
pub fn push_object(text: &mut Vec<u8>, front: &[u8], line: &[u8]) -> Result<(), AllocError> {
    text.extend_from_slice(front)?;
    let mut place = Place::Alone;
    for word in line.split(|byte| *byte == b' ') {
        if is_number(word) {
            place = push_number(text, place, word)?;
        } else {
            close(text, place)?;
            place = push_label(text, word)?;
        }
    }
    close(text, place)?;
    text.extend_from_slice(b"}\n")
}
