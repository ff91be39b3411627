//! What a link keeps for its pace.

ghost use Rattle.std.specs.Prelude.{◌≡◌, ◌<◌, ◌≤◌, ◌+ℤ◌, pos, nat_abs};
ghost use Rattle.dn_lockstep.specs.Contents.{contents};
ghost use Rattle.dn_link.specs.{Leaning.{looks, step_of, worked_off, stretches}, Pace.{after_datagram, after_input, after_refusal, still_owed, with_leads}, Pacing.{new_pace, state_of}};
ghost use Rattle.dn_link.specs.Congestion.{ticked};
ghost use Rattle.dn_link.specs.Leaning.{IsLean};
ghost use Rattle.dn_link.specs.Pace.{briefs_after, given_to};
ghost use Rattle.dn_link.specs.Pacing.{is_brief};
ghost use Rattle.std.specs.Prelude.{false, slice_index, slice_index_or, ◌≤ℤ◌};

use crate::bundle::Bundle;
use crate::congestion::Congestion;
use crate::leaning::Leaning;
use crate::line::Line;
use crate::stretching::Stretching;
use dn_lockstep::Lockstep;
use dn_machine::Made;
use dn_tic::Input;

/// Two parts of a tick.
fn together(lean: i8, slow: i8) -> i8
    requires lean { nat_abs lean ≤ 9 }
    requires slow { nat_abs slow ≤ 32 }
    requires longer { pos 0 ≤ℤ slow }
    ensures value { result ≡ lean +ℤ slow }
    ensures range { IsLean result }
{
    lean + slow
}

/// An input for which there was no room is owed.
fn owed_after(input: Input, made: Made) -> Option<Input>
    ensures { result ≡ still_owed made (Some input) }
{
    match made {
        Made::Full => Some(input),
        _ => None,
    }
}

/// What a link keeps for its pace.
#[derive(Drop)]
pub(crate) struct Pace {
    /// The line from each player.
    lines: [Line; 4],
    /// Whether each was given a datagram since the last tick.
    given: [bool; 4],
    /// How many brief ones each was given in a row, each as the first since a tick: 2 at most, and at first.
    briefs: [u8; 4],
    /// The input of which a command is owed.
    pub(crate) owed: Option<Input>,
    leaning: Leaning,
    stretching: Stretching,
    congestion: Congestion,
    /// How often bytes came that were no datagram.
    pub(crate) refused: u32,
}

impl Pace {
    /// Before the first tick.
    pub(crate) fn new() -> Pace
        ensures { state_of result ≡ new_pace }
    {
        Pace {
            lines: [Line::new(), Line::new(), Line::new(), Line::new()],
            given: [false; 4],
            briefs: [2; 4],
            owed: None,
            leaning: Leaning::new(),
            stretching: Stretching::new(),
            congestion: Congestion::new(),
            refused: 0,
        }
    }

    /// The line from a player.
    #[tactic(auto, using(std::proofs::lemmas::List::get_or_default))]
    pub(crate) fn line(&self, player: u8) -> &Line
        requires { player < 4 }
        ensures { result.now ≡ (state_of self.now).lines player }
    {
        &self.lines[player as usize]
    }

    /// A datagram of a peer came.
    pub(crate) fn hear(&mut self, bundle: &Bundle)
        requires { bundle.now.from < 4 }
        ensures { state_of self.new ≡ after_datagram bundle.now (state_of self.old) }
    {
        self.lines[bundle.from as usize].hear(bundle);
    }

    /// Whether the next datagram to a peer is a brief one.
    pub(crate) fn is_brief(&self, to: u8) -> bool
        requires { to < 4 }
        ensures { result ≡ is_brief (state_of self.now) to }
    {
        self.given[to as usize] || self.briefs[to as usize] < self.congestion.between()
    }

    /// How many brief ones a peer was given in a row, after one more.
    fn briefs_after(&self, to: u8) -> u8
        requires { to < 4 }
        ensures { result ≡ briefs_after (state_of self.now) to }
    {
        let briefs = self.briefs[to as usize];
        if self.given[to as usize] {
            briefs
        } else if self.is_brief(to) {
            briefs.saturating_add(1).min(2)
        } else {
            0
        }
    }

    /// A peer is given a datagram.
    pub(crate) fn give(&mut self, to: u8)
        requires { to < 4 }
        ensures { state_of self.new ≡ given_to to (state_of self.old) }
    {
        self.briefs[to as usize] = self.briefs_after(to);
        self.given[to as usize] = true;
    }

    /// The input of a tick, and what came of it.
    pub(crate) fn take(&mut self, input: Input, made: Made)
        ensures { state_of self.new ≡ after_input input made (state_of self.old) }
    {
        if self.owed.is_some() {
            self.stretching.drop_input();
        }
        self.owed = owed_after(input, made);
        self.given = [false; 4];
    }

    /// What came of the input that was owed.
    pub(crate) fn settle(&mut self, made: Made)
        ensures { state_of self.new ≡ record (state_of self.old) { owed = still_owed made (state_of self.old).owed } }
    {
        if made != Made::Full {
            self.owed = None;
        }
    }

    /// Bytes came that were no datagram.
    pub(crate) fn refuse(&mut self)
        ensures { state_of self.new ≡ after_refusal (state_of self.old) }
    {
        self.refused = self.refused.saturating_add(1);
    }

    /// By how many commands this player leads each other.
    fn see_leads(&mut self, lockstep: &Lockstep)
        ensures { state_of self.new ≡ with_leads (contents lockstep.now) (state_of self.old) }
    {
        self.lines = [
            self.line(0).at_tick(lockstep, 0),
            self.line(1).at_tick(lockstep, 1),
            self.line(2).at_tick(lockstep, 2),
            self.line(3).at_tick(lockstep, 3),
        ];
    }

    /// How full the line is: it is before a tick, at which this player has made so many commands, these peers play, and
    /// each player has reported so many of them.
    pub(crate) fn time(&mut self, made: u32, plays: &[bool; 4], reported: &[u32; 4])
        ensures { state_of self.new ≡ record (state_of self.old) {
          congestion = ticked made (λ p. slice_index_or plays.now p false) (slice_index reported.now) (state_of self.old).congestion;
        } }
    {
        self.congestion.tick(made, plays, reported);
    }

    /// How full the line is.
    pub(crate) fn congestion(&self) -> &Congestion
        ensures { result.now ≡ (state_of self.now).congestion }
    {
        &self.congestion
    }

    /// A tick, at which the leads of so many players differ by so much in all, and on whose lines datagrams are
    /// missing or not. Answers by how many 32nds of a tick the next tick comes later.
    pub(crate) fn tick(
        &mut self,
        lockstep: &Lockstep,
        differences: i32,
        playing: u8,
        lossy: bool,
    ) -> i8
        requires few { 1 ≤ playing }
        requires small { nat_abs differences ≤ 1024 }
        ensures leans { result ≡ step_of (looks differences playing (state_of self.old).leaning)
            +ℤ pos (stretches lossy (state_of self.old).stretching).slow }
        ensures range { IsLean result }
        ensures next { state_of self.new ≡ record (with_leads (contents lockstep.now) (state_of self.old)) {
          given = λ player. false;
          leaning = worked_off (looks differences playing (state_of self.old).leaning);
          stretching = stretches lossy (state_of self.old).stretching;
        } }
    {
        self.see_leads(lockstep);
        self.given = [false; 4];
        let lean = self.leaning.tick(differences, playing);
        together(lean, self.stretching.tick(lossy))
    }
}
