//! A packet under way.

use arrayvec::ArrayVec;
use dn_node::Aim;

/// A packet that was sent. It stays where it is, however often it is delivered.
#[derive(Debug, Drop, PartialEq, Eq)]
pub struct Flight {
    /// The number of the sender.
    pub from: u8,
    /// The number of the receiver.
    pub to: u8,
    /// Its exact numbers.
    pub aim: Aim,
    /// Its datagram.
    pub bytes: ArrayVec<u8, 104>,
}
