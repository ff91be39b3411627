//! A whole game of two, with packets from one lockstep to another, out of order and more than once.

ghost use Rattle.dn_lockstep.specs.Contents.{contents};
ghost use Rattle.dn_engine_tests.specs.Calls.{PassesOn, Passes};
ghost use Rattle.std.specs.Prelude.{IfOk};
ghost use Rattle.dn_lockstep.specs.Opening.{IsAdmittedWithin};
ghost use Rattle.dn_engine_tests.specs.{Pairs.host, Pairs.IsOneGame, Pairs.IsOpened, Pairs.IsPlayed, Pairs.Stays, Pairs.HaveAgreed, Pairs.TakeBoth, Pairs.Exchange, Pairs.RunBoth, Pairs.Round, Pairs.SecondLeaves};

use crate::calls::{Parcel, give, hand, quit, run, take};
use dn_lockstep::{Config, Lockstep, NodeFault, locksteps_agree, one_game_opens, windows_hold};
use dn_setup::Settings;
use dn_tic::Command;
use std::alloc::Global;

/// Hands the next packet to a peer, then the one before, and then the next one again.
pub fn pass(
    from: u8,
    sender: &mut Lockstep,
    to: u8,
    receiver: &mut Lockstep,
    late: &mut Option<Parcel>,
)
    ensures one_game { PassesOn from to (contents sender.old) (contents sender.new) (contents receiver.old)
        (contents receiver.new) late.old late.new }
    ensures step { Passes from to (contents sender.old) (contents sender.new) (contents receiver.old)
        (contents receiver.new) late.old late.new }
{
    let parcel = take(sender, from, to);
    hand(receiver, to, &parcel);
    hand(receiver, to, late);
    hand(receiver, to, &parcel);
    *late = parcel;
}

/// Two locksteps, and the last packet of each, which comes late once more.
#[derive(Drop)]
pub struct Pair {
    /// Player 0's.
    pub first: Lockstep,
    /// Player 1's.
    pub second: Lockstep,
    /// Of player 0.
    pub from_first: Option<Parcel>,
    /// Of player 1.
    pub from_second: Option<Parcel>,
}

/// The two locksteps of a new game, in this window.
pub fn open(alloc: Global, settings: Settings, limit: u32, ahead: u8) -> Result<Pair, NodeFault>
    ensures one_game { IfOk result (λ pair. IsOneGame settings pair) }
    ensures opened { IfOk result (λ pair. IsOpened settings limit ahead pair) }
    ensures admitted { IsAdmittedWithin (host settings limit) ahead result }
{
    windows_hold();
    one_game_opens();
    let host = Config {
        players: 2,
        me: 0,
        extra: false,
        limit,
        settings: Some(settings),
    };
    let guest = Config {
        me: 1,
        settings: None,
        ..host
    };
    let first = Lockstep::within(alloc, host, ahead)?;
    let second = Lockstep::within(alloc, guest, ahead)?;
    Ok(Pair {
        first,
        second,
        from_first: None,
        from_second: None,
    })
}

impl Pair {
    /// Both take a command.
    fn give(&mut self, commands: [Command; 2])
        ensures one_game { Stays self.old self.new }
        ensures step { TakeBoth commands self.old self.new }
    {
        let [one, other] = commands;
        give(&mut self.first, one);
        give(&mut self.second, other);
    }

    /// Each hands the other its packets.
    fn exchange(&mut self)
        ensures one_game { Stays self.old self.new }
        ensures step { Exchange self.old self.new }
    {
        pass(
            0,
            &mut self.first,
            1,
            &mut self.second,
            &mut self.from_first,
        );
        pass(
            1,
            &mut self.second,
            0,
            &mut self.first,
            &mut self.from_second,
        );
    }

    /// Both run a tic if they can.
    fn run(&mut self)
        ensures one_game { Stays self.old self.new }
        ensures step { RunBoth self.old self.new }
    {
        run(&mut self.first);
        run(&mut self.second);
    }

    /// A command of each, their packets, and a tic of each.
    fn round(&mut self, commands: [Command; 2])
        ensures one_game { Stays self.old self.new }
        ensures step { Round commands self.old self.new }
    {
        self.give(commands);
        self.exchange();
        self.run();
    }

    /// The second player leaves, and the first hears of it.
    fn leave(&mut self)
        ensures one_game { Stays self.old self.new }
        ensures step { SecondLeaves self.old self.new }
    {
        quit(&mut self.second);
        self.exchange();
        run(&mut self.first);
    }
}

/// A game in this window, of as many rounds as there are pairs of commands, which the second player leaves at
/// the end.
pub fn play(
    alloc: Global,
    settings: Settings,
    limit: u32,
    ahead: u8,
    commands: &[[Command; 2]],
) -> Result<Pair, NodeFault>
    ensures one_game { IfOk result (λ pair. IsOneGame settings pair) }
    ensures played { IfOk result (λ pair. IsPlayed settings limit ahead commands.now pair) }
    ensures admitted { IsAdmittedWithin (host settings limit) ahead result }
    ensures agree { IfOk result (λ pair. HaveAgreed (contents pair.first) (contents pair.second)) }
{
    locksteps_agree();
    let mut pair = open(alloc, settings, limit, ahead)?;
    for &both in commands {
        pair.round(both);
    }
    pair.leave();
    Ok(pair)
}
