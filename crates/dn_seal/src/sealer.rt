//! Sealing and opening.

ghost use Rattle.std.specs.{Prelude.◌≡◌, Prelude.◌<◌, Prelude.◌≤◌, Prelude.◌^◌, Prelude.◌+◌, Prelude.◌++◌, Prelude.ℕ, Prelude.length, Prelude.drop, Prelude.take, Prelude.if◌then◌else◌};
ghost use Rattle.std.specs.{Prelude.Option, Prelude.Some, Prelude.None, Prelude.Result, Prelude.IsTrue, Prelude.◌↔◌, Int.w32, Int.from_le_bytes};
ghost use Rattle.dn_seal.specs.{Hmac.HasTaken, Hmac.HasTaken-prop, Hmac.tag_of, Hmac.no_secret, Envelope.Letter, Envelope.body_bytes, Envelope.envelope, Envelope.ask_bytes, Opening.IsOpenedAs};
ghost use Rattle.dn_seal.specs.{Opening.told_game, Opening.told_body, Opening.told_tag, Opening.ask_in, declared.opened.Opened.Opened, declared.opened.SealFault.SealFault};
ghost use Rattle.dn_seal.specs.declared.seal.Suite.TheVariants.{Secret, Open};

use crate::appending::append;
use crate::mac::{INNER, OUTER, begun, finished, is_same};
use crate::opened::{Opened, SealFault};
use crate::seal::{Seal, suite_byte};
use arrayvec::ArrayVec;
use sha2::Sha256;

/// How many bytes an envelope has beside its datagram.
pub const OVERHEAD: usize = 37;

/// The most bytes of an envelope.
pub const MAX_ENVELOPE: usize = 141;

/// How many bytes a tag has.
const TAG: usize = 16;

/// How many bytes stand in front of a datagram.
const HEAD: usize = 21;

/// What is in an envelope: one datagram of 1997.
const KIND: u8 = 1;

/// How many bytes of a game's number are in an envelope.
const TOLD: usize = 8;

/// How many bytes the suite, the kind and the game take.
const FRONT: usize = 10;

/// What a player seals and opens by: what all players of the game have in common, and the player's own number.
#[derive(Drop)]
pub struct Sealer {
    seal: Seal,
    me: u8,
    /// Hashers that have taken the key, so that a tag costs half.
    inner: Sha256,
    outer: Sha256,
    ghost sixteen: { length seal.game ≡ 16 },
    ghost takes_message: { HasTaken 0x36 seal.key inner } by { HasTaken-prop 0x36 seal.key inner },
    ghost takes_digest: { HasTaken 0x5c seal.key outer } by { HasTaken-prop 0x5c seal.key outer },
}

/// The first bytes of a code.
fn first_bytes(code: &[u8; 32]) -> [u8; 16]
    ensures { result ≡ take 16 code.now }
{
    let mut tag = [0; TAG];
    tag.copy_from_slice(&code[..TAG]);
    tag
}

/// Whether there is a request, and its tic.
pub fn ask_bytes(ask: Option<u32>) -> [u8; 5]
    ensures { result ≡ ask_bytes ask }
{
    match ask {
        None => [0; 5],
        Some(tic) => {
            let [a, b, c, d] = tic.to_le_bytes();
            [1, a, b, c, d]
        }
    }
}

/// The tic that four bytes from a place on are.
pub fn tic_at(bytes: &[u8], place: usize) -> u32
    requires { place + 4 ≤ length bytes.now }
    ensures { result ≡ from_le_bytes w32 (take 4 (drop place bytes.now)) }
{
    let mut four = [0; 4];
    four.copy_from_slice(&bytes[place..place + 4]);
    u32::from_le_bytes(four)
}

/// The request that a byte and a tic are, and none where they are none.
pub fn ask_in(flag: u8, tic: u32) -> Option<Option<u32>>
    ensures { result ≡ ask_in flag tic }
{
    if flag == 1 {
        return Some(Some(tic));
    }
    if flag == 0 && tic == 0 {
        return Some(None);
    }
    None
}

/// The datagram in an envelope.
fn datagram_in(bytes: &[u8]) -> ArrayVec<u8, 104>
    requires long { 37 ≤ length bytes.now }
    requires short { length bytes.now ≤ 141 }
    ensures { result.items ≡ drop 21 (told_body bytes.now) }
{
    let body = &bytes[..bytes.len() - TAG];
    let mut datagram = ArrayVec::new();
    let _ = datagram.try_extend_from_slice(&body[HEAD..]);
    datagram
}

impl Sealer {
    ghost use Rattle.dn_seal.specs.Sealing.{sealing, sealed_with, front_bytes};

    /// The sealer of a player whose game's players share a secret.
    pub fn new(secret: [u8; 32], number: [u8; 16], me: u8) -> Sealer
        ensures { sealing result ≡ record { seal = sealed_with Secret secret number; me = me } }
    {
        Sealer::of(Seal::new(secret, number), me)
    }

    /// The sealer of a player of an open game, which has no secret.
    pub fn without_secret(number: [u8; 16], me: u8) -> Sealer
        ensures { sealing result ≡ record { seal = sealed_with Open no_secret number; me = me } }
    {
        Sealer::of(Seal::without_secret(number), me)
    }

    /// The sealer of a player of the game that this is the seal of.
    pub fn of(seal: Seal, me: u8) -> Sealer
        ensures { sealing result ≡ record { seal = seal; me = me } }
    {
        let inner = begun(&seal.key, INNER);
        let outer = begun(&seal.key, OUTER);
        Sealer {
            seal,
            me,
            inner,
            outer,
        }
    }

    /// The number of the player who seals and opens.
    pub fn me(&self) -> u8
        ensures { result ≡ (sealing self.now).me }
    {
        self.me
    }

    /// The first ten bytes of every envelope: the suite, the kind of what follows, and the front of the game's
    /// number.
    pub fn front(&self, kind: u8) -> [u8; 10]
        ensures { result ≡ front_bytes (sealing self.now).seal kind }
    {
        let mut front = [0; FRONT];
        front[0] = suite_byte(self.seal.suite);
        front[1] = kind;
        front[2..].copy_from_slice(&self.seal.game[..TOLD]);
        front
    }

    /// Whether bytes 2 to 9, of at least ten, are the first eight of the game's number, as in all that is sealed.
    pub fn is_of_game(&self, bytes: &[u8]) -> bool
        requires { 10 ≤ length bytes.now }
        ensures { IsTrue result ↔ (told_game bytes.now ≡ take 8 (sealing self.now).seal.game) }
    {
        bytes[2..2 + TOLD] == self.seal.game[..TOLD]
    }

    /// A hasher that has taken the key, for a message.
    fn inner(&self) -> Sha256
        ensures { HasTaken 0x36 (sealing self.now).seal.key result }
    {
        match self.inner.clone() {
            Ok(hasher) => hasher,
            Err(_) => begun(&self.seal.key, INNER),
        }
    }

    /// A hasher that has taken the key, for a digest.
    fn outer(&self) -> Sha256
        ensures { HasTaken 0x5c (sealing self.now).seal.key result }
    {
        match self.outer.clone() {
            Ok(hasher) => hasher,
            Err(_) => begun(&self.seal.key, OUTER),
        }
    }

    /// The tag of bytes. Whoever seals another kind of thing by it writes the suite, the kind and the game's
    /// number first, as every envelope does, so that no two kinds have bytes in common.
    pub fn tag(&self, bytes: &[u8]) -> [u8; 16]
        ensures { result ≡ tag_of (sealing self.now).seal.key bytes.now }
    {
        first_bytes(&finished(self.inner(), self.outer(), bytes))
    }

    /// Whether the last 16 bytes are the tag of those before them.
    pub fn is_tagged(&self, bytes: &[u8]) -> bool
        requires { 16 ≤ length bytes.now }
        ensures { IsTrue result ↔ (told_tag bytes.now
            ≡ tag_of (sealing self.now).seal.key (told_body bytes.now)) }
    {
        let end = bytes.len() - TAG;
        let mut told = [0; TAG];
        told.copy_from_slice(&bytes[end..]);
        is_same(&told, &self.tag(&bytes[..end]))
    }

    /// The envelope of a datagram to a player.
    pub fn seal(&self, to: u8, start: u32, ask: Option<u32>, datagram: &[u8]) -> ArrayVec<u8, 141>
        requires { length datagram.now ≤ 104 }
        ensures { result.items ≡ envelope (sealing self.now).seal.key (record {
          suite = (sealing self.now).seal.suite;
          game = (sealing self.now).seal.game;
          from = (sealing self.now).me;
          to = to;
          start = start;
          ask = ask;
          datagram = datagram.now;
        }) }
    {
        let mut bytes = ArrayVec::new();
        append(&mut bytes, &[suite_byte(self.seal.suite), KIND]);
        append(&mut bytes, &self.seal.game[..TOLD]);
        append(&mut bytes, &[self.me, to]);
        append(&mut bytes, &start.to_le_bytes());
        append(&mut bytes, &ask_bytes(ask));
        append(&mut bytes, datagram);
        let tag = self.tag(bytes.as_slice());
        append(&mut bytes, &tag);
        bytes
    }

    /// Opens an envelope to this player, or returns the first fault that the bytes have.
    pub fn open(&self, bytes: &[u8]) -> Result<Opened, SealFault>
        ensures opens { IsOpenedAs (sealing self.now) bytes.now result }
        ensures only { (read : Result Opened SealFault)
            → IsOpenedAs (sealing self.now) bytes.now read → result ≡ read }
    {
        if bytes.len() < OVERHEAD {
            return Err(SealFault::Short);
        }
        if bytes.len() > MAX_ENVELOPE {
            return Err(SealFault::Long);
        }
        if bytes[0] != suite_byte(self.seal.suite) {
            return Err(SealFault::Suite);
        }
        if bytes[1] != KIND {
            return Err(SealFault::Kind);
        }
        if !self.is_of_game(bytes) {
            return Err(SealFault::Game);
        }
        if bytes[11] != self.me {
            return Err(SealFault::Receiver);
        }
        if !self.is_tagged(bytes) {
            return Err(SealFault::Tag);
        }
        let Some(ask) = ask_in(bytes[16], tic_at(bytes, 17)) else {
            return Err(SealFault::Request);
        };
        Ok(Opened {
            from: bytes[10],
            start: tic_at(bytes, 12),
            ask,
            datagram: datagram_in(bytes),
        })
    }
}
