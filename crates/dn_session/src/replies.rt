//! What a joiner makes of replies.

ghost use Rattle.std.specs.Prelude.{◌≡◌, ◌≤◌, IfOk, false, map, true};
ghost use Rattle.dn_session.specs.Joining.{number_of, stage_after, answered, game_now, is_answer, is_heard, is_own, is_sure, joining, on_hinted, on_refused, on_reply, on_seating, HearsHost};

use crate::cookies::{game_of, is_recent};
use crate::greeting::{Address, GreetingFault, Hint, Hinted, Refusal, Refused, Seating, Shown};
use crate::joiner::{Joiner, Stage};
use crate::polling::calls_on;
use crate::reading::{open, read_hinted};

/// Where who is refused so stands.
fn stage_after(refusal: Refusal) -> Stage
    ensures { result ≡ stage_after refusal }
{
    match refusal {
        Refusal::Cookie => Stage::Calling,
        Refusal::Full => Stage::Waiting,
        refusal => Stage::Refused(refusal),
    }
}

/// The number of who holds a seat, and zeros.
fn number_of(seat: &Option<Shown>) -> [u8; 16]
    ensures { result ≡ number_of seat.now }
{
    match seat {
        Some(shown) => shown.holder.number,
        None => [0; 16],
    }
}

/// The numbers of those who hold the seats.
fn numbers_of(seats: &[Option<Shown>; 3]) -> [[u8; 16]; 3]
    ensures { result ≡ map number_of seats.now }
{
    let [one, two, three] = seats;
    [number_of(one), number_of(two), number_of(three)]
}

impl Joiner {
    /// Whether it is the newest reply to the calls that it has made.
    fn is_answer(&self, number: &[u8; 16], count: u32) -> bool
        ensures { result ≡ is_answer number.now count (joining self.now) }
    {
        *number == self.number && self.answered < count && count <= self.calls
    }

    /// It was answered.
    fn answer(&mut self, count: u32, cookie: [u8; 16], now: u32)
        ensures { joining self.new ≡ answered count cookie now (joining self.old) }
    {
        self.answered = count;
        self.cookie = cookie;
        self.heard = now;
        self.hinted = None;
    }

    /// Whether it has the seat that a seating tells it.
    fn is_own(&self, seating: &Seating) -> bool
        requires { (1 ≤ seating.now.seat) × (seating.now.seat ≤ 3) }
        ensures { result ≡ is_own seating.now (joining self.now) }
    {
        let shown = seating.seats[usize::from(seating.seat - 1)];
        shown.is_some_and(|shown| shown.holder.number == self.number)
    }

    /// What it makes of a seating.
    fn seated(&mut self, seating: Seating, now: u32)
        requires { (1 ≤ seating.seat) × (seating.seat ≤ 3) }
        ensures { joining self.new ≡ on_seating seating now (joining self.old) }
    {
        if !self.is_answer(&seating.number, seating.count) || !self.is_own(&seating) {
            return;
        }
        self.answer(seating.count, seating.cookie, now);
        self.stage = if seating.begun {
            Stage::Playing
        } else {
            Stage::Seated
        };
        self.retry_now = false;
        self.seating = Some(seating);
    }

    /// Whether it heeds no refusal.
    fn is_sure(&self, now: u32) -> bool
        ensures { result ≡ is_sure now (joining self.now) }
    {
        matches!(self.stage, Stage::Seated) && is_recent(now, self.heard)
    }

    /// What it makes of a refusal.
    fn refused(&mut self, refused: &Refused, now: u32)
        ensures { joining self.new ≡ on_refused refused.now now (joining self.old) }
    {
        if self.is_answer(&refused.number, refused.count) && !self.is_sure(now) {
            self.answer(refused.count, refused.cookie, now);
            self.retry_now = matches!(refused.refusal, Refusal::Cookie);
            self.stage = stage_after(refused.refusal);
        }
    }

    /// What it makes of a hint.
    fn hinted(&mut self, hinted: &Hinted, now: u32)
        ensures { joining self.new ≡ on_hinted hinted.now now (joining self.old) }
    {
        if hinted.number == self.number {
            self.hinted = self.hinted.or(Some((hinted.hint, now)));
        }
    }

    /// What it makes of bytes, read as each of the three.
    fn reply(
        &mut self,
        seating: Result<Seating, GreetingFault>,
        refused: Result<Refused, GreetingFault>,
        hinted: Result<Hinted, GreetingFault>,
        now: u32,
    )
        requires { IfOk seating (λ s. (1 ≤ s.seat) × (s.seat ≤ 3)) }
        ensures { joining self.new ≡ on_reply seating refused hinted now (joining self.old) }
    {
        match seating {
            Ok(seating) => self.seated(seating, now),
            Err(_) => match refused {
                Ok(refused) => self.refused(&refused, now),
                Err(_) => {
                    if let Ok(hinted) = hinted {
                        self.hinted(&hinted, now);
                    }
                }
            },
        }
    }

    /// Whether what comes from an address is heard.
    fn is_heard(&self, from: &Address) -> bool
        ensures { result ≡ is_heard from.now (joining self.now) }
    {
        from.bytes == self.config.host.bytes && calls_on(self.stage)
    }

    /// Takes any bytes that came from an address at this time.
    pub fn hear(&mut self, from: &Address, bytes: &[u8], now: u32)
        ensures hears { is_heard from.now (joining self.old) ≡ true
            → HearsHost bytes.now now (joining self.old) (joining self.new) }
        ensures deaf { is_heard from.now (joining self.old) ≡ false → joining self.new ≡ joining self.old }
    {
        if !self.is_heard(from) {
            return;
        }
        let seating = open(&self.sealer, bytes);
        let refused = open(&self.sealer, bytes);
        let hinted = read_hinted(bytes);
        self.reply(seating, refused, hinted, now);
    }

    /// The number of its game, once that has begun.
    pub fn game(&self) -> Option<[u8; 16]>
        ensures { result ≡ game_now (joining self.now) }
    {
        match (&self.stage, &self.seating) {
            (Stage::Playing, Some(seating)) => Some(game_of(
                &self.sealer,
                &seating.host,
                &seating.terms,
                &numbers_of(&seating.seats),
            )),
            _ => None,
        }
    }
}
