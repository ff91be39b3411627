//! Where the players are.

ghost use Rattle.std.specs.{Prelude.{◌≡◌, ◌==◌, ◌&&◌, find, true, Some}, Option.option_map};
ghost use Rattle.dn_session.specs.Places.{after_probe, answers_at, echoed, fallback_after, heard_at, heard_from, heard_here, is_anothers, is_due_at, is_echoed, is_fallback_due, is_heard_at, is_near_at, is_since, is_this, may_move, new_place, new_spot, passed_by, place_of, places_of, probe_to, probed, probed_at, sought_at, spot_at, was_probed};

use crate::greeting::Address;

/// For how many milliseconds a player is near after it was last heard and echoed, and is not after a detour; and for how
/// many it must not have answered, and have had any candidate, before another address is tried.
const AWAY: u32 = 1000;

/// For how many milliseconds a player that gives no sign of life is probed unasked.
const PROBED_FOR: u32 = 10_000;

/// How many of the last probes are known.
const KNOWN: usize = 16;

/// What a datagram of a player tells, beside where it came from.
#[derive(Clone, Copy, Debug, PartialEq, Eq)]
pub struct News {
    /// Whether it is one of the last 64, and came for the first time or again.
    pub is_current: bool,
    /// Whether the player's newest echo is above the one before it.
    pub is_answer: bool,
    /// That echo.
    pub echo: u32,
}

/// Where a player may be, that does not show now that it receives there.
#[derive(Clone, Copy, Debug, PartialEq, Eq)]
pub struct Spot {
    /// The address.
    pub address: Address,
    /// Since when it may be there, in milliseconds of the listener's own clock.
    pub since: u32,
    /// Whether a datagram of the player came from there since the last probe.
    pub is_due: bool,
    /// When that was sent, if one was.
    pub probed: Option<u32>,
}

/// One of the last probes.
#[derive(Clone, Copy, Debug, PartialEq, Eq)]
pub struct Probe {
    /// What the player echoes if this is its newest datagram.
    pub echo: u32,
    /// Where it went; nowhere, if none was sent yet.
    pub to: Option<Address>,
}

/// Where a player is.
#[derive(Clone, Copy, Debug, PartialEq, Eq)]
pub struct Place {
    /// The address at which it receives, as it has shown, if one is known.
    pub address: Option<Address>,
    /// When one of its last datagrams came from there, in milliseconds of the listener's own clock.
    pub heard: u32,
    /// When it last answered from there.
    pub answered: u32,
    /// When it last answered from anywhere.
    pub echoed: u32,
    /// When another passed a datagram of the player on, if one did, and that was noted.
    pub detour: Option<u32>,
    /// Where it may be besides: where the roster tells, or where it received before.
    pub fallback: Option<Spot>,
    /// Where it may be, because a datagram came from there, if it may be elsewhere.
    pub candidate: Option<Spot>,
    /// The last probes, the newest first.
    pub probes: [Probe; KNOWN],
}

/// Whether something was done less than so many milliseconds ago, if it was.
pub(crate) fn is_since(time: u32, now: u32, done: Option<u32>) -> bool
    ensures { result ≡ is_since time now done }
{
    done.is_some_and(|done| u64::from(now) < u64::from(done) + u64::from(time))
}

/// Whether an address that may be known is this one.
pub(crate) fn is_this(from: &Address, address: Option<Address>) -> bool
    ensures { result ≡ is_this from.now address }
{
    address.is_some_and(|address| address.bytes == from.bytes)
}

/// Where a player may be, if it may be elsewhere.
fn spot_at(spot: Option<Spot>) -> Option<Address>
    ensures { result ≡ spot_at spot }
{
    spot.map(|spot| spot.address)
}

/// Whether a probe is due for a datagram that came from there.
fn is_due_at(looked: u32, spot: Option<Spot>) -> bool
    ensures { result ≡ is_due_at looked spot }
{
    spot.is_some_and(|spot| spot.is_due && !is_since(250, looked, spot.probed))
}

/// Whether one is due where the roster tells that a player is, or it received before, that was silent for so long by the
/// last look, and may answer from its address.
fn is_fallback_due(looked: u32, silence: u32, answers: bool, spot: Option<Spot>) -> bool
    ensures { result ≡ is_fallback_due looked silence answers spot }
{
    match spot {
        Some(fallback) => {
            is_due_at(looked, spot)
                || (!answers && !is_since(1000, looked, fallback.probed) && silence < PROBED_FOR)
        }
        None => false,
    }
}

impl Spot {
    /// An address that the roster tells, or from which a datagram came.
    const fn new(is_found: bool, now: u32, address: Address) -> Spot
        ensures { result ≡ new_spot is_found now address }
    {
        Spot {
            address,
            since: now,
            is_due: is_found,
            probed: None,
        }
    }

    /// A datagram came from there.
    fn asked(self) -> Spot
        ensures { result ≡ record self { is_due = true } }
    {
        Spot {
            is_due: true,
            ..self
        }
    }

    /// A probe was sent to this address.
    fn probed(self, to: &Address, now: u32) -> Spot
        ensures { result ≡ probed to.now now self }
    {
        if is_this(to, Some(self.address)) {
            Spot {
                is_due: false,
                probed: Some(now),
                ..self
            }
        } else {
            self
        }
    }
}

impl Probe {
    /// Whether this is its echo.
    fn is_echoed(&self, echo: u32) -> bool
        ensures { result ≡ is_echoed echo self.now }
    {
        self.to.is_some() && self.echo == echo
    }
}

impl Place {
    /// An address at which the player receives, as the lobby showed, or which the roster tells.
    fn new(address: Option<Address>, now: u32, is_shown: bool) -> Place
        ensures { result ≡ new_place is_shown now address }
    {
        Place {
            address: if is_shown { address } else { None },
            heard: now,
            answered: now,
            echoed: now,
            detour: None,
            fallback: if is_shown {
                None
            } else {
                address.map(|address| Spot::new(false, now, address))
            },
            candidate: None,
            probes: [Probe { echo: 0, to: None }; KNOWN],
        }
    }

    /// Whether the player receives at this address, and was heard there in the second before.
    fn is_heard_at(&self, from: &Address, now: u32) -> bool
        ensures { result ≡ is_heard_at from.now now self.now }
    {
        is_this(from, self.address) && is_since(AWAY, now, Some(self.heard))
    }

    /// Whether one of the last probes went to this address.
    fn was_probed(&self, from: &Address) -> bool
        ensures { result ≡ was_probed from.now self.now }
    {
        self.probes.iter().any(|probe| is_this(from, probe.to))
    }

    /// Whether the player may be elsewhere, where one of its last datagrams came from.
    fn may_move(&self, from: &Address, now: u32) -> bool
        ensures { result ≡ may_move from.now now self.now }
    {
        if is_since(AWAY, now, Some(self.answered)) {
            return false;
        }
        match self.candidate {
            None => true,
            Some(candidate) => {
                !is_since(AWAY, now, Some(candidate.since))
                    && !(is_since(AWAY, now, candidate.probed) && self.was_probed(from))
            }
        }
    }

    /// One of the last datagrams of the player came from this address, where it is not known to receive.
    fn seek(&mut self, from: &Address, now: u32)
        ensures { self.new ≡ sought_at from.now now self.old }
    {
        if is_this(from, spot_at(self.fallback)) {
            self.fallback = self.fallback.map(Spot::asked);
        } else if is_this(from, spot_at(self.candidate)) {
            self.candidate = self.candidate.map(Spot::asked);
        } else if self.may_move(from, now) {
            self.candidate = Some(Spot::new(true, now, *from));
        }
    }

    /// One of its last datagrams came from where it receives. It may be an answer.
    fn hear_here(&mut self, now: u32, is_answer: bool)
        ensures { self.new ≡ heard_here now is_answer self.old }
    {
        self.heard = now;
        if is_answer {
            self.answered = now;
            self.candidate = None;
        }
    }

    /// A datagram of the player came from this address.
    fn hear(&mut self, from: &Address, now: u32, news: &News)
        ensures { self.new ≡ heard_from from.now now news.now self.old }
    {
        if !news.is_current {
            return;
        }
        if is_this(from, self.address) {
            self.hear_here(now, news.is_answer);
        } else {
            self.seek(from, now);
        }
    }

    /// Which of the last probes has this echo, if one has.
    fn probe_of(&self, echo: u32) -> Option<Probe>
        ensures { result ≡ find (is_echoed echo) self.now.probes }
    {
        self.probes
            .iter()
            .find(|probe| probe.is_echoed(echo))
            .copied()
    }

    /// Where the player may be besides, now that it receives where a probe went: where it received before, if that is
    /// elsewhere.
    fn fallback_after(&self, now: u32, to: Option<Address>) -> Option<Spot>
        ensures { result ≡ fallback_after now to self.now }
    {
        match self.address {
            Some(before) if !is_this(&before, to) => Some(Spot::new(false, now, before)),
            _ => self.fallback,
        }
    }

    /// An answer came, from wherever. The player receives where the probe went that is echoed, if one is.
    fn answer(&mut self, now: u32, echo: u32)
        ensures { self.new ≡ echoed now echo self.old }
    {
        self.echoed = now;
        if let Some(probe) = self.probe_of(echo) {
            self.fallback = self.fallback_after(now, probe.to);
            self.address = probe.to;
            self.heard = now;
            self.answered = now;
            self.candidate = None;
        }
    }

    /// Another passed on a datagram of the player, which may be one of the last that it sent.
    fn pass(&mut self, now: u32, is_current: bool)
        ensures { self.new ≡ passed_by now is_current self.old }
    {
        if is_current && !is_since(2 * AWAY, now, self.detour) {
            self.detour = Some(now);
        }
    }

    /// Whether in the second before the player was heard where it receives, and answered from anywhere, and no other passed
    /// a datagram of it on.
    pub(crate) fn is_near(&self, looked: u32) -> bool
        ensures { result ≡ is_near_at looked self.now }
    {
        self.address.is_some()
            && is_since(AWAY, looked, Some(self.heard))
            && is_since(AWAY, looked, Some(self.echoed))
            && !is_since(AWAY, looked, self.detour)
    }

    /// Whether it answered from where it receives in the second before.
    fn answers(&self, looked: u32) -> bool
        ensures { result ≡ answers_at looked self.now }
    {
        self.address.is_some() && is_since(AWAY, looked, Some(self.answered))
    }

    /// Where a probe is due to a player that was silent for so long, by the last look.
    pub fn probe_to(&self, looked: u32, silence: u32) -> Option<Address>
        ensures { result ≡ probe_to looked silence self.now }
    {
        if is_fallback_due(looked, silence, self.answers(looked), self.fallback) {
            spot_at(self.fallback)
        } else if is_due_at(looked, self.candidate) {
            spot_at(self.candidate)
        } else {
            None
        }
    }

    /// A probe was sent to this address, that is echoed so.
    fn note_probe(&mut self, to: &Address, now: u32, echo: u32)
        ensures { self.new ≡ after_probe to.now now echo self.old }
    {
        self.fallback = self.fallback.map(|fallback| fallback.probed(to, now));
        self.candidate = self.candidate.map(|candidate| candidate.probed(to, now));
        self.probes.copy_within(..KNOWN - 1, 1);
        self.probes[0] = Probe {
            echo,
            to: Some(*to),
        };
    }
}

/// Where each player is.
#[derive(Clone, Copy, Debug, PartialEq, Eq)]
pub struct Places {
    /// By their numbers.
    pub at: [Place; 4],
}

impl Places {
    /// Where the host is, if it is another, and those in the seats 1 to 3, as was heard now.
    pub fn of(host: Option<Address>, seats: [Option<Address>; 3], now: u32) -> Places
        ensures { result ≡ places_of host seats now }
    {
        let has_all = host.is_none();
        let [one, two, three] = seats;
        Places {
            at: [
                Place::new(host, now, true),
                Place::new(one, now, has_all),
                Place::new(two, now, has_all),
                Place::new(three, now, has_all),
            ],
        }
    }

    /// Where a player is, as far as it is known.
    pub fn place(&self, player: u8) -> Place
        ensures { result ≡ place_of player self.now }
    {
        if player < 4 {
            self.at[usize::from(player)]
        } else {
            Place::new(None, 0, false)
        }
    }

    /// Whether another player than this one receives at this address, and was heard there in the second before.
    fn is_anothers(&self, player: u8, from: &Address, now: u32) -> bool
        ensures { result ≡ is_anothers player from.now now self.now }
    {
        [0, 1, 2, 3].iter().any(|other| *other != player
            && self.place(*other).is_heard_at(from, now))
    }

    /// A datagram of a player came from this address.
    pub fn hear(&mut self, player: u8, from: &Address, now: u32, news: &News)
        ensures { self.new ≡ heard_at player from.now now news.now self.old }
    {
        if player >= 4 {
            return;
        }
        let is_passed = !is_this(from, self.place(player).address)
            && self.is_anothers(player, from, now);
        let place = &mut self.at[usize::from(player)];
        if is_passed {
            place.pass(now, news.is_current);
        } else {
            place.hear(from, now, news);
        }
        if news.is_answer {
            place.answer(now, news.echo);
        }
    }

    /// A probe was sent to where a player may be, that is echoed so.
    pub fn note_probe(&mut self, player: u8, to: &Address, now: u32, echo: u32)
        ensures { self.new ≡ probed_at player to.now now echo self.old }
    {
        if player < 4 {
            self.at[usize::from(player)].note_probe(to, now, echo);
        }
    }
}
