//! For how long others were silent, and for how long the game stood still.

ghost use Rattle.std.specs.Prelude.{◌≡◌, slice_set};
ghost use Rattle.dn_session.specs.Watch.{goes_on, has_slept, looked_at, moved, new_watch, silence, stalled, woken};

/// How many milliseconds at most may pass between two looks. A machine that does not look for longer sleeps.
const AWAKE: u32 = 1000;

/// For how long others were silent, and for how long the game stood still. Times are milliseconds of the
/// player's own clock.
#[derive(Clone, Copy, Debug, PartialEq, Eq)]
pub struct Watch {
    /// When each player was heard last.
    pub heard: [u32; 4],
    /// Since when somebody is awaited while nothing goes on.
    pub since: u32,
    /// How many tics were run.
    pub ran: u32,
    /// Who was gone.
    pub gone: [bool; 4],
    /// When it looked last.
    pub looked: u32,
}

impl Watch {
    /// All are there, and were heard now.
    pub fn new(now: u32) -> Watch
        ensures { result ≡ new_watch now }
    {
        Watch {
            heard: [now; 4],
            since: now,
            ran: 0,
            gone: [false; 4],
            looked: now,
        }
    }

    /// A player was heard.
    pub fn hear(&mut self, player: u8, now: u32)
        ensures { self.new ≡ record self.old { heard = slice_set self.old.heard player now } }
    {
        if player < 4 {
            self.heard[usize::from(player)] = now;
        }
    }

    /// Whether the machine slept since the last look, or its caller did not call.
    fn has_slept(&self, now: u32) -> bool
        ensures { result ≡ has_slept now self.now }
    {
        now > self.looked && now - self.looked > AWAKE
    }

    /// The time that comes so much later, but not after now.
    fn moved(now: u32, slept: u32, time: u32) -> u32
        ensures { result ≡ moved now slept time }
    {
        time.saturating_add(slept).min(now)
    }

    /// Time that it slept does not count. [`Watch::look`] sees to that itself.
    pub fn wake(&mut self, now: u32)
        ensures { self.new ≡ woken now self.old }
    {
        if self.has_slept(now) {
            let slept = now - self.looked - AWAKE;
            let [zero, one, two, three] = self.heard;
            self.heard = [
                Watch::moved(now, slept, zero),
                Watch::moved(now, slept, one),
                Watch::moved(now, slept, two),
                Watch::moved(now, slept, three),
            ];
            self.since = Watch::moved(now, slept, self.since);
            self.looked = now;
        }
    }

    /// Whether the game goes on: nobody is awaited, a tic was run, or somebody went.
    fn goes_on(&self, ran: u32, gone: &[bool; 4], is_awaited: bool) -> bool
        ensures { result ≡ goes_on ran gone.now is_awaited self.now }
    {
        !is_awaited || ran != self.ran || *gone != self.gone
    }

    /// Looks how many tics were run, who is gone, and whether anybody is awaited.
    pub fn look(&mut self, now: u32, ran: u32, gone: [bool; 4], is_awaited: bool)
        ensures { self.new ≡ looked_at now ran gone is_awaited self.old }
    {
        self.wake(now);
        if self.goes_on(ran, &gone, is_awaited) {
            self.since = now;
        }
        self.ran = ran;
        self.gone = gone;
        self.looked = now;
    }

    /// For how long a player was silent; 0 if there is no such player.
    pub fn silence(&self, player: u8, now: u32) -> u32
        ensures { result ≡ silence player now self.now }
    {
        if player < 4 {
            now.saturating_sub(self.heard[usize::from(player)])
        } else {
            0
        }
    }

    /// For how long somebody is awaited while nothing goes on.
    pub fn stalled(&self, now: u32) -> u32
        ensures { result ≡ stalled now self.now }
    {
        now.saturating_sub(self.since)
    }
}
