//! Which packets lie near a receiver's own count.

ghost use Rattle.std.specs.Prelude.{◌≡◌, ◌==◌, ◌&&◌, ◌||◌, bit_and, not};
ghost use Rattle.dn_packet.specs.Flags as flag;
ghost use Rattle.dn_machine.specs.Flight.{Flight, is_close, is_request_close, is_near};
ghost use Rattle.dn_lockstep.specs.Sent.{aim_of};

use crate::lockstep::aiming::Aim;
use dn_packet::SETUP;

/// The farthest that a packet's tics may lie from its receiver's own count (`d_net.c`, ExpandTics).
const REACH: u32 = 64;

/// Whether a tic lies within 64 of a count.
fn is_close(made: u32, tic: u32) -> bool
    ensures { result ≡ is_close made tic }
{
    made.abs_diff(tic) <= REACH
}

/// Whether a packet's first tic, and the tic that it asks for if it asks for one, lie within 64 of the
/// number of commands that its receiver has made.
pub fn are_tics_near(made: u32, start: u32, ask: Option<u32>) -> bool
    ensures { result ≡ (is_close made start && is_request_close made ask) }
{
    let is_request_close = match ask {
        Some(tic) => is_close(made, tic),
        None => true,
    };
    is_close(made, start) && is_request_close
}

impl Aim {
    /// Whether a packet of these numbers is near a receiver that has made `made` commands: its first tic, and
    /// the tic that it asks for if it asks for one, lie within 64 of that number. A set-up packet is near
    /// every receiver.
    pub fn is_near(&self, made: u32) -> bool
        ensures value { result ≡ (not (bit_and self.now.flags flag.set_up == 0)
            || (is_close made self.now.start && is_request_close made self.now.ask)) }
        ensures near { (flight : Flight) → self.now ≡ aim_of flight → result ≡ is_near made flight }
    {
        self.flags & SETUP != 0 || are_tics_near(made, self.start, self.ask)
    }
}
