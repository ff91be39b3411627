//! The exact numbers of the packets that go out.

ghost use Rattle.std.specs.{Prelude.◌≡◌, Prelude.◌<◌, Prelude.◌≤◌, Prelude.◌+◌, Prelude.◌-◌, Prelude.min, Prelude.nat_lt, Prelude.if◌then◌else◌, Prelude.IfSome, Prelude.is_some, Option.option_map};
ghost use Rattle.dn_packet.specs.Flags.{exit};
ghost use Rattle.dn_setup.specs.Settings.{bit};
ghost use Rattle.dn_machine.specs.{declared.answers.Phase.TheVariants.Ended, declared.answers.Cause.Cause, Flight.Play, Flight.request_flag, Flight.request_byte, Sending.commands_flight};
ghost use Rattle.dn_machine.specs.{Sending.first_sent, Sending.request_to, Sending.on_send_in};
ghost use Rattle.dn_lockstep.specs.{Tables.count_of, Sent.sent_to, Sent.aim_of};

use super::Lockstep;
use dn_machine::Phase;
use dn_packet::{EXIT, RETRANSMIT, SETUP};

/// How many commands a packet carries at most (`d_net.h`, doomdata_t).
const MOST_SENT: u32 = 12;

/// The exact numbers of a packet, of which it carries the low bytes.
#[derive(Clone, Copy, Debug, PartialEq, Eq)]
pub struct Aim {
    /// Bits of EXIT, RETRANSMIT and SETUP, as the packet has them.
    pub flags: u8,
    /// The tic from which commands are asked for again.
    pub ask: Option<u32>,
    /// The tic of the first command, and 0 for set-up.
    pub start: u32,
    /// How many commands there are.
    pub count: u8,
}

/// The flag of a packet that asks for commands again.
fn request_flag(ask: Option<u32>) -> u8
    ensures { result ≡ request_flag ask }
{
    match ask {
        Some(_) => RETRANSMIT,
        None => 0,
    }
}

/// The low byte of the tic that is asked for, and 0 for none.
pub(super) fn request_byte(ask: Option<u32>) -> u8
    ensures { result ≡ request_byte ask }
{
    match ask {
        Some(tic) => (tic % 256) as u8,
        None => 0,
    }
}

impl Lockstep {
    ghost use Rattle.dn_lockstep.specs.{Contents.contents, Steps.Tells, Giving.Reaches, Giving.Gives, Giving.gives};

    /// The exact numbers of the packet that `packet` would give now.
    // Inlined, so that a packet is given without a call for its numbers.
    #[inline(always)]
    pub fn aim(&self, to: u8) -> Option<Aim>
        ensures told { Tells (contents self.now)
            (λ limits me m. result ≡ option_map aim_of (sent_to to limits me m).1) }
        ensures reach { IfSome result (λ aim. Reaches (contents self.now) aim
            × Gives (contents self.now) to) }
        ensures known { is_some result ≡ gives (contents self.now) to }
    {
        if to == self.me || to >= self.players {
            return None;
        }
        match self.phase {
            Phase::Listening => None,
            Phase::Gathering => Some(Aim {
                flags: SETUP,
                ask: None,
                start: 0,
                count: 0,
            }),
            Phase::Playing => Some(self.aim_of_commands(to)),
            Phase::Ended(_) => self.aim_of_exit(to),
        }
    }

    /// The first tic of the next packet to a peer, never further behind than commands are kept.
    fn first_sent(&self, to: u8) -> u32
        requires { to < (contents self.now).players }
        ensures told { Tells (contents self.now) (λ limits me m. result ≡ first_sent limits me m to) }
        ensures low { result ≤ count_of (contents self.now).rings (contents self.now).me }
        ensures high { count_of (contents self.now).rings (contents self.now).me
            ≤ result + (contents self.now).places }
    {
        let made = self.made();
        let resend = self.peers.get(to).resend;
        if made - resend > self.places {
            made - self.lag()
        } else {
            resend
        }
    }

    /// How many commands from there on the next packet carries.
    fn many_from(&self, start: u32) -> u8
        requires low { start ≤ count_of (contents self.now).rings (contents self.now).me }
        ensures { result ≡ min 12 (count_of (contents self.now).rings (contents self.now).me - start) }
    {
        (self.made() - start).min(MOST_SENT) as u8
    }

    /// The flag of a packet that ends at this tic, of a node that has played and ended.
    fn exit_flag(&self, end: u32) -> u8
        ensures { result ≡ (if nat_lt end (count_of (contents self.now).rings (contents self.now).me) then 0
            else exit) }
    {
        if end < self.made() { 0 } else { EXIT }
    }

    /// The tic that the peer is asked for, if commands of it are missing.
    fn request_to(&self, to: u8) -> Option<u32>
        requires { to < (contents self.now).players }
        ensures { Tells (contents self.now) (λ limits me m. result ≡ request_to m to) }
    {
        if self.peers.get(to).want {
            Some(self.rings.count(to))
        } else {
            None
        }
    }

    /// The numbers of a packet of commands.
    #[tactic(auto, using(crate::proofs::Giving::aim_is, crate::proofs::Shown::made_is))]
    fn aim_of_commands(&self, to: u8) -> Aim
        requires { to < (contents self.now).players }
        ensures told { Tells (contents self.now)
            (λ limits me m. result ≡ aim_of (commands_flight limits me m to Play (request_to m to))) }
        ensures reach { Reaches (contents self.now) result }
    {
        let start = self.first_sent(to);
        let ask = self.request_to(to);
        Aim {
            flags: request_flag(ask),
            ask,
            start,
            count: self.many_from(start),
        }
    }

    /// The numbers of a packet that a node gives which has played and ended: it asks for no commands. It is an
    /// EXIT packet (`d_net.c`, D_QuitNetGame) where it carries the last command, so that the peers know all
    /// up to the node's end, and else one like those before.
    #[tactic(auto, using(crate::proofs::Giving::aim_is, crate::proofs::Giving::left_flags, crate::proofs::Giving::exit_given, crate::proofs::Giving::none_given, crate::proofs::Shown::made_is))]
    fn aim_of_exit(&self, to: u8) -> Option<Aim>
        requires below { to < (contents self.now).players }
        ensures told { (cause : Cause) → Tells (contents self.now)
            (λ limits me m. result ≡ option_map aim_of (on_send_in limits me m to (Ended cause)).1) }
        ensures reach { IfSome result (Reaches (contents self.now)) }
        ensures known { is_some result ≡ (contents self.now).played }
    {
        if !self.played {
            return None;
        }
        let start = self.first_sent(to);
        let count = self.many_from(start);
        Some(Aim {
            flags: self.exit_flag(start + u32::from(count)),
            ask: None,
            start,
            count,
        })
    }

    /// How many commands are sent again with each packet.
    pub(super) fn lag(&self) -> u32
        ensures { result ≡ bit (contents self.now).extra }
    {
        u32::from(self.extra)
    }
}
