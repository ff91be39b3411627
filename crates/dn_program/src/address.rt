//! The address of a host.

use dn_host::address_of;
use dn_session::Address;
use std::net::{Net, ToSocketAddrs};

/// The port of a host whose address names none.
const PORT: u16 = 5029;

/// The first of the addresses that a name stands for.
fn first_of<A: ToSocketAddrs + Drop>(rt: &impl Net, name: A) -> Option<Address> {
    match name.to_socket_addrs(rt) {
        Ok(mut addresses) => Some(address_of(addresses.next()?)),
        Err(_) => None,
    }
}

/// The first address of a host's name and port. An IPv6 address without a port has more colons than one.
pub(crate) fn found(rt: &impl Net, address: &str) -> Option<Address> {
    let colons = address.bytes().filter(|byte| *byte == b':').count();
    match first_of(rt, address) {
        None if colons != 1 => first_of(rt, (address, PORT)),
        found => found,
    }
}
