//! What a session over a network tells on standard error while it goes on.

use crate::ends::text_of_refusal;
use dn_host::Screen;
use dn_measure::{Status, text_of_status};
use dn_session::Refusal;

/// Standard error.
#[derive(Drop)]
pub(crate) struct ErrorScreen<'a, R> {
    rt: &'a R,
    each_second: bool,
    address: &'a str,
}

impl<'a, R> ErrorScreen<'a, R> {
    /// Standard error, with a line each second or without, and the address of the host.
    pub(crate) fn new(rt: &'a R, each_second: bool, address: &'a str) -> Self {
        ErrorScreen {
            rt,
            each_second,
            address,
        }
    }
}

impl<R: Eprint + AllocGlobal> Screen for ErrorScreen<'_, R> {
    fn show(&mut self, status: &Status) {
        if !self.each_second {
            return;
        }
        if let Ok(text) = text_of_status(self.rt.alloc(), status) {
            let _ = self.rt.eprint(text.as_str());
        }
    }

    fn wait(&mut self, refusal: Refusal) {
        if let Ok(text) = text_of_refusal(self.rt.alloc(), "waiting", refusal) {
            let _ = self.rt.eprint(text.as_str());
        }
    }

    fn miss(&mut self) {
        let address = self.address;
        let _ = eprintln!(self.rt; "no answer from {address}");
    }
}
