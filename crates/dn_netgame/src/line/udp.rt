//! A line over UDP, between the ports of this machine.

ghost use Rattle.std.specs.Prelude.{◌≡◌, ◌⊎◌, ◌<◌, ◌≤◌, ◌+◌, true, false, is_some, IsErr, IfOk, IfErr, IfSome};
ghost use Rattle.dn_netgame.specs.{Lines.Udp.IsBase, Lines.Udp.is_bound, Lines.Udp.is_route, Lines.Udp.UdpSends, Lines.Udp.UdpPolls, declared.line.LineFault.TheVariants.Bind, declared.line.LineFault.TheVariants.Send};
ghost use Rattle.dn_netgame.specs.{declared.line.LineFault.TheVariants.Poll};

use crate::line::{Datagram, KEPT, Line, LineFault, count_after};
use arrayvec::ArrayVec;
use std::alloc::Global;
use std::io;
use std::io::ErrorKind;
use std::marker::Model;
use std::net::{Ipv4Addr, Net, SocketAddr, UdpSocket};

/// Who is at none of the players' ports.
const STRANGER: u8 = 255;

/// A line over UDP: player p is at port `base + p` of 127.0.0.1.
#[derive(Drop)]
pub struct UdpLine {
    base: u16,
    first: u8,
    last: u8,
    players: u8,
    /// The sockets of the players from `first` to `last`.
    sockets: Vec<UdpSocket>,
    failed: u64,
}

impl Model for UdpLine {
    ghost use Rattle.std.specs.Prelude.{◌≡◌, ◌≤◌, ◌<◌, ◌+◌, vec_len};
    ghost use Rattle.dn_netgame.specs.Lines.Udp.{Ports};

    ghost Value = { Ports };

    ghost view = { λ l. record {
      base = l.base;
      first = l.first;
      last = l.last;
      players = l.players;
      failed = l.failed;
    } };

    ghost invariant = { λ l. (l.base ≤ 65532) × (l.players ≤ 4) × (l.last < l.players)
        × (l.last + 1 ≤ l.first + vec_len l.sockets) };
}

/// Whether player 0 may be at this port: 1024 to 65532. Above, there is no room for the ports of three more.
pub fn is_base(port: u16) -> bool
    ensures yes { result ≡ true → IsBase port }
    ensures no { IsBase port → result ≡ true }
{
    (1024..=65_532).contains(&port)
}

/// A socket of this port, which does not wait.
fn socket(rt: &impl Net, port: u16) -> io::Result<UdpSocket> {
    let socket = UdpSocket::bind(rt, SocketAddr::from((Ipv4Addr::LOCALHOST, port)))?;
    socket.set_nonblocking(true)?;
    Ok(socket)
}

impl UdpLine {
    /// Binds the ports of the players from `first` to `last`.
    pub fn bind<R: Net>(
        rt: &R,
        alloc: Global,
        base: u16,
        first: u8,
        last: u8,
        players: u8,
    ) -> Result<UdpLine, LineFault>
        requires base { IsBase base }
        requires players { (2 ≤ players) × (players ≤ 4) }
        requires bound { (first ≤ last) × (last < players) }
        ensures line { IfOk result (λ line. line
            ≡ record { base = base; first = first; last = last; players = players; failed = 0 }) }
        ensures fault { IfErr result (λ fault. fault ≡ Bind) }
    {
        let mut sockets = Vec::new(alloc);
        for player in first..last + 1 {
            let Ok(socket) = socket(rt, base + u16::from(player)) else {
                return Err(LineFault::Bind);
            };
            if sockets.push(socket).is_err() {
                return Err(LineFault::Bind);
            }
        }
        Ok(UdpLine {
            base,
            first,
            last,
            players,
            sockets,
            failed: 0,
        })
    }

    /// The socket of a player, if it is bound.
    fn socket(&self, player: u8) -> Option<&UdpSocket>
        ensures { is_some result ≡ is_bound self.now player }
    {
        if player > self.last {
            return None;
        }
        let place = player.checked_sub(self.first)?;
        self.sockets.get(usize::from(place))
    }

    /// Whose port this address is.
    fn player_at(&self, address: SocketAddr) -> u8
        ensures { (result < self.now.players) ⊎ (result ≡ 255) }
    {
        for player in 0..self.players {
            let port = self.base + u16::from(player);
            if address == SocketAddr::from((Ipv4Addr::LOCALHOST, port)) {
                return player;
            }
        }
        STRANGER
    }

    /// Sends a datagram, if the numbers allow it.
    fn put(&self, me: u8, to: u8, bytes: &[u8]) -> Result<(), LineFault>
        ensures route { is_route self.now me to ≡ false → IsErr result }
        ensures fault { IfErr result (λ fault. fault ≡ Send) }
    {
        if to >= self.players || me == to {
            return Err(LineFault::Send);
        }
        let Some(socket) = self.socket(me) else {
            return Err(LineFault::Send);
        };
        let port = self.base + u16::from(to);
        match socket.send_to(bytes, SocketAddr::from((Ipv4Addr::LOCALHOST, port))) {
            Ok(count) if count == bytes.len() => Ok(()),
            _ => Err(LineFault::Send),
        }
    }

    /// The next datagram of a player, if one is there.
    fn get(&self, me: u8) -> Result<Option<Datagram>, LineFault>
        ensures bound { is_bound self.now me ≡ false → IsErr result }
        ensures fault { IfErr result (λ fault. fault ≡ Poll) }
        ensures from { IfOk result
            (λ found. IfSome found (λ datagram. (datagram.from < self.now.players) ⊎ (datagram.from ≡ 255))) }
    {
        let Some(socket) = self.socket(me) else {
            return Err(LineFault::Poll);
        };
        let mut buffer = [0; KEPT];
        match socket.recv_from(&mut buffer) {
            Ok((count, address)) => {
                let mut bytes = ArrayVec::new();
                let _ = bytes.try_extend_from_slice(&buffer[..count]);
                let from = self.player_at(address);
                Ok(Some(Datagram { from, bytes }))
            }
            Err(error) if error.kind() == ErrorKind::WouldBlock => Ok(None),
            Err(_) => Err(LineFault::Poll),
        }
    }

    /// How many calls failed, as a number that wraps.
    pub fn failed(&self) -> u64
        ensures { result ≡ self.now.failed }
    {
        self.failed
    }
}

impl Line for UdpLine {
    ghost sends = { UdpSends };

    ghost polls = { UdpPolls };

    ghost failed = { λ line. line.failed };

    fn send(&mut self, me: u8, to: u8, bytes: &[u8]) -> Result<(), LineFault> {
        let answer = self.put(me, to, bytes);
        self.failed = count_after(&answer, self.failed);
        answer
    }

    fn poll(&mut self, me: u8) -> Result<Option<Datagram>, LineFault> {
        let answer = self.get(me);
        self.failed = count_after(&answer, self.failed);
        answer
    }
}
