//! Where the commands of a player end who is given up, and the last of them.

ghost use Rattle.std.specs.Prelude.{◌≡◌, ◌≤◌, max, length};
ghost use Rattle.dn_survivor.specs.OfOthers.{count_told, last_told};

use crate::others::Others;
use crate::report::Tail;
use dn_tic::TicCmd;

/// The larger of two counts.
fn larger(one: u32, other: u32) -> u32
    ensures { result ≡ max one other }
{
    if one < other { other } else { one }
}

/// How many commands of a player are told, and 0 where the player is not told of.
fn count_told(told: &[Tail], player: u8) -> u32
    ensures { result ≡ count_told told.now player }
{
    let mut rest = told;
    while let Some((tail, after)) = rest.split_first() {
        if tail.player == player {
            return tail.count;
        }
        rest = after;
    }
    0
}

/// The last of them.
fn last_told(told: &[Tail], player: u8) -> &[TicCmd]
    ensures is { result.now ≡ last_told told.now player }
    ensures few { length result.now ≤ 24 }
{
    let mut rest = told;
    while let Some((tail, after)) = rest.split_first() {
        if tail.player == player {
            return tail.commands.as_slice();
        }
        rest = after;
    }
    &[]
}

impl Others {
    ghost use Rattle.std.specs.Prelude.{◌≡◌, ◌<◌, ◌≤◌, length};
    ghost use Rattle.dn_remain.specs.Vanished.Node.{share, decided_end};
    ghost use Rattle.dn_survivor.specs.OfOthers.{commands_of, first_of, last_by, own_of, teller_of, told_of};

    /// How many commands of a player count for one: for the node so many, for one who is given up none, and for
    /// any other those of whom its newest report tells.
    fn share(&self, me: u8, player: u8, own: u32, teller: u8) -> u32
        requires { teller < 4 }
        ensures { result ≡ share me (own_of self.now (λ player. own)) (told_of self.now) player teller }
    {
        if teller == me {
            return own;
        }
        if self.gone[usize::from(teller)] {
            return 0;
        }
        match &self.newest[usize::from(teller)] {
            None => 0,
            Some(report) => count_told(report.told.as_slice(), player),
        }
    }

    /// Where the commands of a player end, by the newest reports, if the node has so many of them: at the
    /// largest count.
    pub fn end(&self, players: u8, me: u8, player: u8, own: u32) -> u32
        requires { players ≤ 4 }
        ensures { result
            ≡ decided_end players me (own_of self.now (λ player. own)) (told_of self.now) player }
    {
        let mut end = 0;
        for teller in 0..players {
            end = larger(end, self.share(me, player, own, teller));
        }
        end
    }

    /// Who told of the most commands of a player, of the others who are not given up.
    pub fn teller(&self, players: u8, me: u8, player: u8) -> u8
        requires { players ≤ 4 }
        ensures is { result ≡ teller_of players me self.now player }
        ensures four { result < 4 }
    {
        let mut best = 0;
        for teller in 0..players {
            if self.share(me, player, 0, best) < self.share(me, player, 0, teller) {
                best = teller;
            }
        }
        best
    }

    /// The last commands of a player that another told, and none of one who is given up.
    fn last_by(&self, me: u8, player: u8, teller: u8) -> &[TicCmd]
        requires { teller < 4 }
        ensures is { result.now ≡ last_by me self.now player teller }
        ensures few { length result.now ≤ 24 }
    {
        if teller == me || self.gone[usize::from(teller)] {
            return &[];
        }
        match &self.newest[usize::from(teller)] {
            None => &[],
            Some(report) => last_told(report.told.as_slice(), player),
        }
    }

    /// The last commands of a player before its end, as the one told them who told of the most. Who is given up
    /// has told nothing.
    pub fn commands(&self, players: u8, me: u8, player: u8) -> &[TicCmd]
        requires { players ≤ 4 }
        ensures { result.now ≡ commands_of players me self.now player }
    {
        self.last_by(me, player, self.teller(players, me, player))
    }

    /// The tic of the first of these.
    pub fn first(&self, players: u8, me: u8, player: u8) -> u32
        requires { players ≤ 4 }
        ensures { result ≡ first_of players me self.now player }
    {
        let teller = self.teller(players, me, player);
        let commands = self.last_by(me, player, teller);
        let count = self.share(me, player, 0, teller);
        count.saturating_sub(commands.len() as u32)
    }
}
