//! What a node keeps of each peer.

ghost use Rattle.std.specs.Prelude.{◌≡◌, ◌≢◌, ◌<◌, ℕ};
ghost use Rattle.dn_machine.specs.{Node.no_peer, Hearing.after_request, Hearing.after_exit, Hearing.is_strange_end};
ghost use Rattle.dn_lockstep.specs.Tables.{peer_at};

use dn_machine::Peer;

/// After honouring a request, ignore further ones for this many packets (`d_net.c`, RESENDCOUNT).
const PAUSE: u8 = 10;

/// A peer of which nothing is known.
fn no_peer() -> Peer
    ensures { result ≡ no_peer }
{
    Peer {
        resend: 0,
        want: false,
        pause: 0,
        end: None,
    }
}

/// What a packet with this request, if it has one, makes of the peer. It is written in place: a peer that is
/// moved costs more.
fn ask(peer: &mut Peer, places: u32, made: u32, request: Option<u32>)
    ensures { peer.new ≡ after_request places made peer.old request }
{
    match request {
        Some(tic) if peer.pause == 0 && tic <= made && made.saturating_sub(places) <= tic => {
            peer.resend = tic;
            peer.pause = PAUSE;
        }
        _ => peer.pause = peer.pause.saturating_sub(1),
    }
}

/// Whether a packet ends where it cannot, by how many commands were had of the peer and by its known end.
pub(crate) fn is_strange_end(exit: bool, got: u32, known: Option<u32>, end: u32) -> bool
    ensures { result ≡ is_strange_end exit got known end }
{
    match known {
        Some(known) => exit && end < got || known < end || exit && end != known,
        None => exit && end < got,
    }
}

/// Four peers, by their numbers.
#[derive(Debug, Drop)]
pub(crate) struct Peers {
    peers: [Peer; 4],
}

impl Peers {
    /// Peers of which nothing is known.
    pub(crate) fn new() -> Peers
        ensures { (p : ℕ) → peer_at result p ≡ no_peer }
    {
        Peers {
            peers: [no_peer(), no_peer(), no_peer(), no_peer()],
        }
    }

    /// What is kept of the peer.
    pub(crate) fn get(&self, player: u8) -> Peer
        requires { player < 4 }
        ensures { result ≡ peer_at self.now player }
    {
        self.peers[usize::from(player)]
    }

    /// Keeps what a packet with this request, if it has one, makes of the peer.
    pub(crate) fn ask(&mut self, player: u8, places: u32, made: u32, request: Option<u32>)
        requires { player < 4 }
        ensures put { peer_at self.new player ≡ after_request places made (peer_at self.old player) request }
        ensures others { (p : ℕ) → p ≢ player → peer_at self.new p ≡ peer_at self.old p }
    {
        ask(&mut self.peers[usize::from(player)], places, made, request);
    }

    /// Keeps what a packet that ends at this tic makes of the peer: the tic is its end if that is an EXIT
    /// packet.
    pub(crate) fn tell(&mut self, player: u8, exit: bool, end: u32)
        requires { player < 4 }
        ensures put { peer_at self.new player ≡ after_exit (peer_at self.old player) exit end }
        ensures others { (p : ℕ) → p ≢ player → peer_at self.new p ≡ peer_at self.old p }
    {
        if exit {
            self.peers[usize::from(player)].end = Some(end);
        }
    }

    /// Keeps whether a resend is wanted of the peer.
    pub(crate) fn want(&mut self, player: u8, want: bool)
        requires { player < 4 }
        ensures put { peer_at self.new player ≡ record (peer_at self.old player) { want = want } }
        ensures others { (p : ℕ) → p ≢ player → peer_at self.new p ≡ peer_at self.old p }
    {
        self.peers[usize::from(player)].want = want;
    }

    /// Keeps from which tic on the peer is sent commands next.
    pub(crate) fn resend_from(&mut self, player: u8, tic: u32)
        requires { player < 4 }
        ensures put { peer_at self.new player ≡ record (peer_at self.old player) { resend = tic } }
        ensures others { (p : ℕ) → p ≢ player → peer_at self.new p ≡ peer_at self.old p }
    {
        self.peers[usize::from(player)].resend = tic;
    }
}
