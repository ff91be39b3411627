//! How a test of this crate ends that has failed.

use dn_shared_tests::checks::Ends;
use std::fmt::Display;
use std::process::Abort;

/// The process panics, with what the macros of `dn_shared_tests` tell of the check that failed.
pub(crate) struct Panics;

impl<R: Abort> Ends<R> for Panics {
    fn end<D: Display + Drop>(rt: &R, told: D) -> ! {
        rt.panic(told)
    }
}
