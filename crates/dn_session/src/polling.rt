//! When a joiner calls.

ghost use Rattle.std.specs.Prelude.{◌≡◌, ◌<◌, ◌^◌, ◌&&◌, ◌||◌, ℕ, option_map, IfSome, Ok};
ghost use Rattle.dn_session.specs.Joining.{calls_on, counts_on_host, has_come, has_passed, is_hint_over, may_retry, acts, call_of, called, calling_again, given_up_by, interval, is_due, joining, on_time};
ghost use Rattle.dn_session.specs.Reading.{IsCallIn};

use crate::greeting::Call;
use crate::joiner::{Joiner, Stage};
use crate::writing::seal;
use arrayvec::ArrayVec;

/// Whether it goes on calling.
pub(crate) fn calls_on(stage: Stage) -> bool
    ensures { result ≡ calls_on stage }
{
    matches!(stage, Stage::Calling | Stage::Waiting | Stage::Seated)
}

/// Whether so much time has passed since another.
pub(crate) fn has_passed(now: u32, since: u32, time: u32) -> bool
    ensures { result ≡ has_passed now since time }
{
    since <= now && now - since >= time
}

/// Whether it did not call at once in the last half second.
fn may_retry(now: u32, retried: Option<u32>) -> bool
    ensures { result ≡ may_retry now retried }
{
    retried.is_none_or(|time| has_passed(now, time, 500))
}

/// Whether it was told of a seat, or to wait for one.
fn counts_on_host(stage: Stage) -> bool
    ensures { result ≡ counts_on_host stage }
{
    matches!(stage, Stage::Waiting | Stage::Seated)
}

/// The time that comes so much later, if there is one.
fn time_after(since: u32, time: u32) -> Option<u32>
    ensures { (now : ℕ) → now < 2 ^ 32 → has_come now result ≡ has_passed now since time }
{
    since.checked_add(time)
}

/// When it may call at once again.
fn retry_at(retried: Option<u32>) -> Option<u32>
    ensures { (now : ℕ) → now < 2 ^ 32 → has_come now result ≡ may_retry now retried }
{
    match retried {
        None => Some(0),
        Some(time) => time_after(time, 500),
    }
}

/// The earlier of two times.
pub(crate) fn earlier(one: Option<u32>, two: Option<u32>) -> Option<u32>
    ensures { (now : ℕ) → has_come now result ≡ (has_come now one || has_come now two) }
{
    let Some(first) = one else {
        return two;
    };
    match two {
        None => Some(first),
        Some(second) => Some(first.min(second)),
    }
}

impl Joiner {
    /// How long it waits after its last call.
    fn interval(&self) -> u32
        ensures { result ≡ interval (joining self.now) }
    {
        if has_passed(self.called, self.heard, 10_000) {
            1000
        } else {
            250
        }
    }

    /// Whether it calls now.
    fn is_due(&self, now: u32) -> bool
        ensures { result ≡ is_due now (joining self.now) }
    {
        calls_on(self.stage)
            && (self.calls == 0
                || has_passed(now, self.called, self.interval())
                || (self.retry_now && may_retry(now, self.retried)))
    }

    /// A hint after which nothing was answered for three seconds ends it.
    fn give_up(&mut self, now: u32)
        ensures { joining self.new ≡ given_up_by now (joining self.old).hinted (joining self.old) }
    {
        if let Some((hint, since)) = self.hinted {
            if calls_on(self.stage) && has_passed(now, since, 3000) {
                self.stage = Stage::Hinted(hint);
            }
        }
    }

    /// It is calling again once nothing was answered for ten seconds.
    fn call_again(&mut self, now: u32)
        ensures { joining self.new ≡ calling_again now (joining self.old) }
    {
        if self.is_unanswered(now) {
            self.stage = Stage::Calling;
        }
    }

    /// The next call.
    fn next_call(&mut self, now: u32) -> Call
        ensures joiner { joining self.new ≡ called now (joining self.old) }
        ensures call { result ≡ call_of (joining self.new) }
    {
        self.calls = self.calls.saturating_add(1);
        self.called = now;
        if self.retry_now {
            self.retried = Some(now);
        }
        self.retry_now = false;
        Call {
            number: self.number,
            count: self.calls,
            cookie: self.cookie,
            seat: self.config.seat,
            players: self.config.players,
            identity: self.config.identity,
            name: self.config.name,
        }
    }

    /// As time goes: the bytes of a call to its host, if one is due.
    pub fn poll(&mut self, now: u32) -> Option<ArrayVec<u8, 581>>
        ensures joiner { joining self.new ≡ (on_time now (joining self.old)).0 }
        ensures call { option_map (λ call. call.items) result ≡ (on_time now (joining self.old)).1 }
        ensures read { IfSome result (λ call.
            IsCallIn (joining self.new).seal call.items (Ok (call_of (joining self.new)))) }
    {
        self.give_up(now);
        self.call_again(now);
        if !self.is_due(now) {
            return None;
        }
        let call = self.next_call(now);
        Some(seal(&self.sealer, &call))
    }

    /// When a hint ends it, and when it is calling again.
    fn ends_at(&self) -> Option<u32>
        ensures { (now : ℕ) → now < 2 ^ 32 → has_come now result
            ≡ (is_hint_over now (joining self.now).hinted
            || (counts_on_host (joining self.now).stage && has_passed now (joining self.now).heard 10000)) }
    {
        let hint = match self.hinted {
            Some((_, since)) => time_after(since, 3000),
            None => None,
        };
        if counts_on_host(self.stage) {
            earlier(hint, time_after(self.heard, 10_000))
        } else {
            hint
        }
    }

    /// When its next call is due, after the first.
    fn next_due(&self) -> Option<u32>
        ensures { (now : ℕ) → now < 2 ^ 32 → has_come now result
            ≡ (has_passed now (joining self.now).called (interval (joining self.now))
            || ((joining self.now).retry_now && may_retry now (joining self.now).retried)) }
    {
        let next = time_after(self.called, self.interval());
        if self.retry_now {
            earlier(next, retry_at(self.retried))
        } else {
            next
        }
    }

    /// When [`Joiner::poll`] is to be called next: before that time it changes nothing and returns no call, and
    /// from then on it does one or the other. None if it never does so again, unless something is heard.
    pub fn due(&self) -> Option<u32>
        ensures { (now : ℕ) → now < 2 ^ 32 → has_come now result ≡ acts now (joining self.now) }
    {
        if !calls_on(self.stage) {
            return None;
        }
        if self.calls == 0 {
            return Some(0);
        }
        earlier(self.next_due(), self.ends_at())
    }
}
