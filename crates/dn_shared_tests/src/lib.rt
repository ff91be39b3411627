//! What the crates of tests share: comparing two values, confirming a fact, and taking what a call has to give,
//! each told of by name where it fails.
//!
//! A test with these is proved at less cost than one with `assert_eq!`, `assert!` and `?` of its own. The
//! first two are proved anew at each place, which takes several times as long as a call. At each `?` a test gives
//! up all that it holds, and that is proved anew each time.
#![tactic(auto)]

pub mod checks;

/// Compares two values, of which the first was found and the second is wanted; with a row of a table, that row is
/// told too.
#[macro_export]
macro_rules! same {
    ($rt:expr; $found:expr, $wanted:expr) => {
        $crate::checks::compare::<crate::checks::Panics, _, _>($rt, stringify!($found), $found, $wanted)
    };
    ($rt:expr; $found:expr, $wanted:expr, $row:expr) => {
        $crate::checks::compare_in_row::<crate::checks::Panics, _, _, _>(
            $rt, stringify!($found), &$row, $found, $wanted
        )
    };
}

/// The same for a fact, in place of `assert!`.
#[macro_export]
macro_rules! holds {
    ($rt:expr; $fact:expr) => {
        $crate::checks::confirm::<crate::checks::Panics, _>($rt, stringify!($fact), $fact)
    };
    ($rt:expr; $fact:expr, $row:expr) => {
        $crate::checks::confirm_in_row::<crate::checks::Panics, _, _>($rt, stringify!($fact), &$row, $fact)
    };
}

/// What a call gives that has to succeed, in place of `?`.
#[macro_export]
macro_rules! must {
    ($rt:expr; $call:expr) => {
        $crate::checks::succeed::<crate::checks::Panics, _, _, _>($rt, stringify!($call), $call)
    };
}

/// What a call gives, if it was not refused memory. Where it was, it has to answer this fault, and that is told
/// as `finds_no_memory` does.
#[macro_export]
macro_rules! granted {
    ($rt:expr; $name:expr, $call:expr, $memory:expr) => {
        $crate::checks::grant::<crate::checks::Panics, _, _, _>($rt, $name, $call, $memory)
    };
}

/// A list whose lines stay as they are written: of short items several on a line, of wide ones one.
#[macro_export]
macro_rules! list {
    ($($item:expr),*) => {
        [$($item),*]
    };
}

/// Tells that this call was refused memory and answered so. `checks/memory/run` refuses each request in turn,
/// and wants each of these lines.
pub fn finds_no_memory(rt: &impl Print, call: &str) {
    let _ = println!(rt; "no memory: {call}");
}
