//! How a survivor runs tics and gives packets.

ghost use Rattle.dn_machine.specs.declared.answers.Ran.TheVariants as ran;

use crate::survivor::Survivor;
use arrayvec::ArrayVec;
use dn_machine::Ran;
use dn_packet::MAX_DATAGRAM;
use dn_tic::Move;

impl Survivor {
    ghost use Rattle.std.specs.{Prelude.◌≡◌, Prelude.◌≢◌, Prelude.◌≤◌, Prelude.ℕ, Prelude.◌+◌, Prelude.ℤ, Prelude.true, Prelude.false, Prelude.None, Prelude.IfSome, Prelude.length, Option.option_map};
    ghost use Rattle.dn_machine.specs.Sparing.{on_run_but};
    ghost use Rattle.dn_lockstep.specs.Giving.{IsSentTo, IsSilent};
    ghost use Rattle.dn_lockstep.specs.Sent.{IsFair, sent_to, bytes_of};
    ghost use Rattle.dn_lockstep.specs.Steps.{FillsIn, RunsBy, RunsOne, TellsNoRow, WaitsAsItWas, told_by, Steps, Tells};
    ghost use Rattle.dn_survivor.specs.{Calls.sent_unless, Surviving.surviving, Surviving.has_given_up};

    /// As `Lockstep::run_into`, but no mark is compared of players who are given up.
    pub fn run_into(&mut self, marks: &[i16; 4], row: &mut [Option<Move>; 4]) -> Ran
        ensures step { RunsBy marks.now (surviving self.old).lockstep (surviving self.new).lockstep
            (λ limits m marks. on_run_but limits (has_given_up (surviving self.old)) m marks)
            (λ ran told. (result ≡ ran) × (told_by result row.new ≡ told)) }
        ensures further { RunsOne (surviving self.old).lockstep (surviving self.new).lockstep result }
        ensures waits { WaitsAsItWas (surviving self.old) (surviving self.new) result row.old row.new }
        ensures idle { result ≡ ran.NotPlaying
            → (surviving self.new ≡ surviving self.old) × (row.new ≡ row.old) }
        ensures off { TellsNoRow result row.old row.new }
        ensures full { FillsIn (surviving self.old).lockstep result row.new }
        ensures others { (surviving self.new).others ≡ (surviving self.old).others }
    {
        self.lockstep.run_without(&self.others.gone, marks, row)
    }

    /// As `Lockstep::packet_to`; none to one who is given up.
    pub fn packet_to(&mut self, to: u8, room: &mut [u8]) -> usize
        requires { 104 ≤ length room.old }
        ensures sent { has_given_up (surviving self.old) to ≡ false → IsSentTo to (surviving self.old).lockstep
            (surviving self.new).lockstep room.old room.new result }
        ensures fair { has_given_up (surviving self.old) to ≡ false → Tells (surviving self.old).lockstep
            (λ limits me m. IfSome (sent_to to limits me m).1 IsFair) }
        ensures silent { has_given_up (surviving self.old) to ≡ false → IsSilent to
            (surviving self.old).lockstep (surviving self.new).lockstep room.old room.new result }
        ensures barred { has_given_up (surviving self.old) to ≡ true
            → (result ≡ 0) × (surviving self.new ≡ surviving self.old) × (room.new ≡ room.old) }
        ensures others { (surviving self.new).others ≡ (surviving self.old).others }
    {
        if self.has_given_up(to) {
            return 0;
        }
        self.lockstep.packet_to(to, room)
    }

    /// As `Lockstep::packet`; none to one who is given up.
    #[tactic(auto, using(dn_lockstep::proofs::After::steps, dn_lockstep::proofs::After::after))]
    pub fn packet(&mut self, to: u8) -> Option<ArrayVec<u8, MAX_DATAGRAM>>
        ensures step { Steps (surviving self.old).lockstep (surviving self.new).lockstep
            (λ limits me m. sent_unless (surviving self.old).others to limits me m)
            (λ flight. option_map (λ bytes. bytes.items) result ≡ option_map bytes_of flight) }
        ensures fair { Tells (surviving self.old).lockstep
            (λ limits me m. IfSome (sent_unless (surviving self.old).others to limits me m).1 IsFair) }
        ensures idle { result ≡ None → surviving self.new ≡ surviving self.old }
        ensures barred { has_given_up (surviving self.old) to ≡ true → result ≡ None }
        ensures others { (surviving self.new).others ≡ (surviving self.old).others }
    {
        if self.has_given_up(to) {
            return None;
        }
        self.lockstep.packet(to)
    }
}
