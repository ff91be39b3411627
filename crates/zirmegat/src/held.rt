//! What a handle holds.

use dn_demo::Demo;
use dn_link::Link;
use dn_lockstep::Lockstep;
use dn_session::Session;

/// What a handle holds: its kind.
#[derive(Drop)]
pub(crate) enum Held {
    /// A session.
    Session(Session),
    /// A demo that was read.
    Demo(Demo),
    /// A node of the packets of 1997.
    Lockstep(Lockstep),
    /// A node that seals what it sends.
    Link(Link),
}
