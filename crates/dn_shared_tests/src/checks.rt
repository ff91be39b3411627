//! What tests compare and confirm, told by name where it fails. The macros beside this call it.

ghost use Rattle.std.specs.Prelude.{◌≡◌, Ok};

use crate::finds_no_memory;
use std::fmt::{Debug, Display};

/// How a test ends that has failed. Each crate of tests has its own, `checks::Panics`, since a library has no
/// function that may end the process.
pub trait Ends<R> {
    /// Tells this, and ends the process.
    fn end<D: Display + Drop>(rt: &R, told: D) -> !;
}

/// Compares what a test found with what it wants. Where they differ, what was asked is told.
pub fn compare<E: Ends<R>, R, T: PartialEq + Debug + Drop>(
    rt: &R,
    what: &str,
    found: T,
    wanted: T,
) {
    if found != wanted {
        E::end(
            rt,
            format_args!("{what}\n found: {found:?}\nwanted: {wanted:?}"),
        );
    }
}

/// The same, and the row of its table is told.
pub fn compare_in_row<E: Ends<R>, R, T: PartialEq + Debug + Drop, Row: Debug>(
    rt: &R,
    what: &str,
    row: &Row,
    found: T,
    wanted: T,
) {
    if found != wanted {
        E::end(
            rt,
            format_args!("{what}, row {row:?}\n found: {found:?}\nwanted: {wanted:?}"),
        );
    }
}

/// Confirms a fact.
pub fn confirm<E: Ends<R>, R>(rt: &R, what: &str, fact: bool) {
    if !fact {
        E::end(rt, what);
    }
}

/// The same, and the row of its table is told.
pub fn confirm_in_row<E: Ends<R>, R, Row: Debug>(rt: &R, what: &str, row: &Row, fact: bool) {
    if !fact {
        E::end(rt, format_args!("{what}, row {row:?}"));
    }
}

/// What a call gives, which has to succeed.
pub fn succeed<E: Ends<R>, R, T, F>(rt: &R, what: &str, given: Result<T, F>) -> T
    ensures { given ≡ Ok result }
{
    match given {
        Ok(value) => value,
        Err(_) => E::end(rt, what),
    }
}

/// What a call gives that may be refused memory, and nothing where it was. Then it has to answer this fault, and
/// that is told.
pub fn grant<E: Ends<R>, R: Print, T, F: PartialEq + Debug + Drop>(
    rt: &R,
    call: &str,
    given: Result<T, F>,
    memory: F,
) -> Option<T> {
    match given {
        Ok(value) => Some(value),
        Err(fault) => {
            compare::<E, R, F>(rt, call, fault, memory);
            finds_no_memory(rt, call);
            None
        }
    }
}
