//! What comes in.

ghost use Rattle.std.specs.{Prelude.◌≡◌, Prelude.◌≤◌, Prelude.length, Option.option_map};
ghost use Rattle.dn_lockstep.specs.Contents.{contents};
ghost use Rattle.dn_link.specs.Linking.{linked};
ghost use Rattle.dn_link.specs.declared.bundle.BundleFault.TheVariants as fault;
ghost use Rattle.dn_link.specs.declared.received.Received.TheVariants as answer;
ghost use Rattle.dn_session.specs.Playing.{is_alive, known_by, told_at, excluders_by, exclusions_by, hears_if, noted, place_after, playing, watch_after, HearsBytes};
ghost use Rattle.dn_session.specs.{Coming.counts_in, Coming.has_more, Passing.next_hop, Passing.passed_on, Passing.sent_of};

use super::{Exclusion, Part, Transmit, copied, keep};
use crate::coming::{Lines, heard_of, is_answer_of, line_of, lines_of, news_of};
use crate::greeting::Address;
use crate::places::{is_since, is_this};
use crate::players::{count_in, is_gone_from};
use dn_link::{BundleFault, Link, PROBE, Received};
use dn_lockstep::Lockstep;

/// How many commands of each player are here.
fn counts_in(lockstep: &Lockstep) -> [u32; 4]
    ensures { result ≡ counts_in (contents lockstep.now) }
{
    [
        count_in(lockstep, 0),
        count_in(lockstep, 1),
        count_in(lockstep, 2),
        count_in(lockstep, 3),
    ]
}

/// Whether more commands of a player are there than before.
fn has_more(before: &[u32; 4], after: &[u32; 4], player: u8) -> bool
    ensures { result ≡ has_more before.now after.now player }
{
    player < 4 && before[player as usize] < after[player as usize]
}

/// What is known of players: of each line, and how many of each player's commands are here.
#[derive(Clone, Copy)]
pub(crate) struct Known {
    lines: Lines,
    counts: [u32; 4],
}

/// What a link knows.
fn known_by(link: &Link) -> Known
    ensures { result ≡ known_by link.now }
{
    Known {
        lines: lines_of(link),
        counts: counts_in(link.lockstep()),
    }
}

/// Whether a player gave a sign of life with what was received.
fn is_alive(received: &Received, before: &Known, after: &Known, player: u8) -> bool
    ensures { result ≡ is_alive received.now before.now after.now player }
{
    is_answer_of(heard_of(received), &before.lines, &after.lines, player)
        || has_more(&before.counts, &after.counts, player)
}

/// Where one who is given up is to be told so whose datagram came from here.
fn told_at(from: &Address, now: u32, exclusion: &Exclusion) -> Exclusion
    ensures { result ≡ told_at from.now now exclusion.now }
{
    if is_since(1000, now, exclusion.told) {
        return *exclusion;
    }
    Exclusion {
        to: Some(*from),
        told: Some(now),
    }
}

impl Part {
    /// Notes that a player was heard, if it was.
    fn note(&mut self, is_heard: bool, player: u8, now: u32)
        ensures { playing self.new ≡ record (playing self.old) {
          watch = hears_if is_heard player now (playing self.old).watch;
        } }
    {
        if is_heard {
            self.watch.hear(player, now);
        }
    }

    /// Notes who gave a sign of life.
    fn note_alive(&mut self, received: &Received, now: u32, before: &Known, after: &Known)
        ensures { playing self.new ≡ record (playing self.old) {
          watch = watch_after received.now before.now after.now now (playing self.old).watch;
        } }
    {
        self.note(is_alive(received, before, after, 0), 0, now);
        self.note(is_alive(received, before, after, 1), 1, now);
        self.note(is_alive(received, before, after, 2), 2, now);
        self.note(is_alive(received, before, after, 3), 3, now);
    }

    /// Notes where a player is whose datagram was heard.
    fn note_place(
        &mut self,
        heard: Option<u8>,
        from: &Address,
        now: u32,
        before: &Known,
        after: &Known,
    )
        ensures { playing self.new ≡ record (playing self.old) {
          places = place_after heard from.now now before.now after.now (playing self.old).places;
        } }
    {
        if let Some(player) = heard {
            let old = line_of(&before.lines, player);
            let new = line_of(&after.lines, player);
            self.places.hear(player, from, now, &news_of(&old, &new));
        }
    }

    /// Notes who has told that it has given up this player.
    fn note_excluder(&mut self, received: &Received)
        ensures { playing self.new ≡ record (playing self.old) {
          excluders = excluders_by received.now (playing self.old).excluders;
        } }
    {
        if let Received::Excluded(from) = received {
            if *from < 4 {
                self.excluders[usize::from(*from)] = true;
            }
        }
    }

    /// Notes that one is to be told who is given up, if its datagram came.
    fn note_excluded(&mut self, received: &Received, from: &Address, now: u32)
        ensures { playing self.new ≡ record (playing self.old) {
          exclusions = exclusions_by received.now from.now now (playing self.old).exclusions;
        } }
    {
        if let Received::GivenUp(player) = received {
            if *player < 4 {
                let exclusion = self.exclusions[usize::from(*player)];
                self.exclusions[usize::from(*player)] = told_at(from, now, &exclusion);
            }
        }
    }

    /// Where a datagram from one player to another goes on to that came from here.
    fn next_hop(&self, here: &Address, from: u8, to: u8) -> Option<Address>
        ensures { result ≡ next_hop (linked (playing self.now).link) (playing self.now).places here.now from to }
    {
        let sender = self.places.place(from);
        if from == to || is_gone_from(&self.link, from) || !is_this(here, sender.address) {
            return None;
        }
        if is_gone_from(&self.link, to) {
            return None;
        }
        self.places.place(to).address
    }

    /// What goes on as it came, if it is a datagram to another player.
    fn passed_on(&self, received: &Received, here: &Address, bytes: &[u8]) -> Option<Transmit>
        requires fits { received.now ≡ answer.Unopened fault.Receiver
            → (19 ≤ length bytes.now) × (length bytes.now ≤ 1200) }
        ensures { option_map sent_of result ≡ passed_on received.now here.now bytes.now
            (linked (playing self.now).link) (playing self.now).places }
    {
        if !matches!(received, Received::Unopened(BundleFault::Receiver)) || bytes[18] == PROBE {
            return None;
        }
        Some(Transmit {
            to: self.next_hop(here, bytes[10], bytes[11])?,
            bytes: copied(bytes),
        })
    }

    /// Notes all that is to be noted of what was received.
    fn note_all(
        &mut self,
        received: &Received,
        from: &Address,
        bytes: &[u8],
        now: u32,
        before: &Known,
        after: &Known,
    )
        requires fits { received.now ≡ answer.Unopened fault.Receiver
            → (19 ≤ length bytes.now) × (length bytes.now ≤ 1200) }
        ensures { playing self.new ≡ noted received.now from.now bytes.now now before.now after.now (playing self.old) }
    {
        let passing = self.passed_on(received, from, bytes);
        keep(&mut self.passing, passing);
        self.note_alive(received, now, before, after);
        self.note_place(heard_of(received), from, now, before, after);
        self.note_excluder(received);
        self.note_excluded(received, from, now);
    }

    /// Takes any bytes that came from an address.
    pub(crate) fn hear(&mut self, from: &Address, bytes: &[u8], now: u32)
        ensures { HearsBytes from.now bytes.now now (playing self.old) (playing self.new) }
    {
        let before = known_by(&self.link);
        let received = self.link.receive(bytes);
        let after = known_by(&self.link);
        self.note_all(&received, from, bytes, now, &before, &after);
    }
}
