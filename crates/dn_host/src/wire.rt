//! What carries datagrams, and a wire over UDP.

ghost use Rattle.std.specs.Prelude.{◌≤◌, ⊤, length, take, drop, if◌then◌else◌, IfSome, ◌≡◌, ℕ, List, Option, map, option_map, true, is_some};
ghost use Rattle.std.specs.{Net.Addr.ipv4_octets, Int.to_be_bytes, Int.w16, declared.net.socket_addr.SocketAddr.SocketAddr as AnySocket};
ghost use Rattle.dn_host.specs.Addresses.{address_at, address_of, ip_bytes, mapped, own_places};
ghost use Rattle.dn_session.specs.declared.greeting.Address.{Address as Place};

use dn_session::Address;
use std::io;
use std::net::{IpAddr, Ipv4Addr, Ipv6Addr, Net, SocketAddr, UdpSocket};

/// The most bytes that are read of a datagram: one more than a link's has, so a longer one is none.
pub const ROOM: usize = 1201;

/// Carries datagrams to addresses. It may lose, repeat, delay and reorder them, as its own relations say.
pub trait Wire {
    /// Its relation of a poll: before, where the datagram that came is from and its bytes, after.
    ghost polls: { Self → Option (Place × List ℕ) → Self → Type 0 } = { λ before came after. ⊤ };

    /// Its relation of a send: before, where to, the bytes, after.
    ghost sends: { Self → Place → List ℕ → Self → Type 0 } = { λ before to bytes after. ⊤ };

    /// Sends a datagram. One that cannot be sent is lost.
    fn send(&mut self, to: &Address, bytes: &[u8])
        ensures { sends self.old to.now bytes.now self.new };

    /// Reads the next datagram into the room, if one is there, and returns where it is from and how many of its
    /// bytes were read. It does not wait.
    fn poll(&mut self, room: &mut [u8]) -> Option<(Address, usize)>
        ensures within { IfSome result (λ found. found.1 ≤ length room.new) }
        ensures polled { polls self.old (option_map (λ found. (found.0, take found.1 room.new)) result) self.new };
}

/// A UDP socket, for IPv6 and IPv4, or for IPv4 alone where no IPv6 socket can be bound at the port.
#[derive(Drop)]
pub struct Udp {
    socket: UdpSocket,
    wide: bool,
}

/// The IPv6 address that an IPv4 address is mapped into.
fn mapped(ip: Ipv4Addr) -> [u8; 16]
    ensures { result ≡ mapped (ipv4_octets ip) }
{
    let [a, b, c, d] = ip.octets();
    [0, 0, 0, 0, 0, 0, 0, 0, 0, 0, 255, 255, a, b, c, d]
}

/// The bytes of an IP address: of IPv6, which one of IPv4 is mapped into.
fn ip_bytes(ip: IpAddr) -> [u8; 16]
    ensures { result ≡ ip_bytes ip }
{
    match ip {
        IpAddr::V4(ip) => mapped(ip),
        IpAddr::V6(ip) => ip.octets(),
    }
}

/// The address of an IPv6 address and a port.
fn address_at(ip: [u8; 16], port: u16) -> Address
    ensures { result ≡ address_at ip port }
{
    let mut bytes = [0; 32];
    bytes[..16].copy_from_slice(&ip);
    bytes[16..18].copy_from_slice(&port.to_be_bytes());
    Address { bytes }
}

/// The address of a socket: that of IPv6, which one of IPv4 is mapped into, its port and zeros.
pub fn address_of(socket: SocketAddr) -> Address
    ensures { result ≡ address_of socket }
{
    address_at(ip_bytes(socket.ip()), socket.port())
}

/// Where a socket of all addresses of the machine is bound at a port: of IPv6, and of IPv4 where that cannot be bound.
fn places(port: u16) -> [SocketAddr; 2]
    ensures { map address_of result ≡ own_places port }
{
    [
        SocketAddr::new(IpAddr::V6(Ipv6Addr::UNSPECIFIED), port),
        SocketAddr::new(IpAddr::V4(Ipv4Addr::UNSPECIFIED), port),
    ]
}

/// A socket at a place, which does not wait.
fn bound(rt: &impl Net, place: SocketAddr) -> io::Result<UdpSocket> {
    let socket = UdpSocket::bind(rt, place)?;
    socket.set_nonblocking(true)?;
    Ok(socket)
}

/// The IP address in an address, for a socket that is wide, or for one that is not.
fn ip_in(bytes: &[u8; 32], wide: bool) -> IpAddr
    ensures { ip_bytes result ≡ (if wide then take 16 bytes.now else mapped (take 4 (drop 12 bytes.now))) }
{
    if wide {
        let mut ip = [0; 16];
        ip.copy_from_slice(&bytes[..16]);
        return IpAddr::V6(Ipv6Addr::from_octets(ip));
    }
    let mut ip = [0; 4];
    ip.copy_from_slice(&bytes[12..16]);
    IpAddr::V4(Ipv4Addr::from_octets(ip))
}

/// The port in an address.
fn port_in(bytes: &[u8; 32]) -> u16
    ensures { to_be_bytes w16 result ≡ take 2 (drop 16 bytes.now) }
{
    let mut port = [0; 2];
    port.copy_from_slice(&bytes[16..18]);
    u16::from_be_bytes(port)
}

impl Udp {
    /// Binds a port, or any that is free if the port is 0. No clause says so: std promises nothing of what a socket
    /// is bound to. `places` has the two places that are tried, in this order.
    pub fn bind(rt: &impl Net, port: u16) -> io::Result<Udp> {
        let [wide, narrow] = places(port);
        let (socket, wide) = match bound(rt, wide) {
            Ok(socket) => (socket, true),
            Err(_) => (bound(rt, narrow)?, false),
        };
        Ok(Udp { socket, wide })
    }

    /// Where an address is, for this socket; None if it is no socket's, or of IPv6 where only IPv4 is spoken.
    fn place_of(&self, to: &Address) -> Option<SocketAddr>
        ensures there { IfSome result (λ socket. address_of socket ≡ to.now) }
        ensures wide { self.now.wide ≡ true → (socket : AnySocket) → address_of socket ≡ to.now
            → is_some result ≡ true }
    {
        let socket = SocketAddr::new(ip_in(&to.bytes, self.wide), port_in(&to.bytes));
        if address_of(socket) == *to {
            Some(socket)
        } else {
            None
        }
    }
}

/// Nothing is said of the network.
impl Wire for Udp {
    fn send(&mut self, to: &Address, bytes: &[u8]) {
        if let Some(place) = self.place_of(to) {
            let _ = self.socket.send_to(bytes, place);
        }
    }

    fn poll(&mut self, room: &mut [u8]) -> Option<(Address, usize)> {
        let (count, from) = self.socket.recv_from(room).ok()?;
        Some((address_of(from), count))
    }
}
