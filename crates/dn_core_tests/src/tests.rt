//! Calls of generic functions at types at which nothing else calls them, and requests for memory that are refused.
//! What the calls do is said by the scripts of `checks/scripts`.

ghost use Rattle.std.specs.Prelude.{◌≡◌, ◌<◌, Some};

mod demo;
mod game;
mod node;
mod ring;
mod turn;
mod world;

use arrayvec::ArrayVec;
use dn_lockstep::Config;
use dn_packet::{Packet, encode};
use dn_setup::{Settings, SettingsFault};
use dn_tic::{Command, Input, Keys, Move, TicCmd};

/// How many bytes the demos of most tests may have.
const LIMIT: u32 = 131_072;

/// A command of no keys, with no mark.
const STILL: TicCmd = TicCmd {
    forward: 0,
    side: 0,
    turn: 0,
    mark: 0,
    chat: 0,
    buttons: 0,
};

/// Skill 2, episode 1, map 1.
fn choice() -> Result<Settings, SettingsFault> {
    Settings::new(2, 0, false, false, 1, 1)
}

/// The rules of a game of so many players for one of them, who has the settings where it is player 0.
fn config_of((players, me): (u8, u8), extra: bool, limit: u32) -> Result<Config, SettingsFault> {
    Ok(Config {
        players,
        me,
        extra,
        limit,
        settings: if me == 0 { Some(choice()?) } else { None },
    })
}

/// A command that is given, of player 0, and no key of others.
fn input_of(player: u8) -> Input {
    match player {
        0 => Input::Given(Command::default()),
        _ => Input::Pressed(Keys::from_bits(0)),
    }
}

/// The move of a player who is present.
fn moved(forward: i8, side: i8, turn: i16, buttons: u8) -> Option<Move>
    ensures { result ≡ Some (record { forward = forward; side = side; turn = turn; buttons = buttons }) }
{
    Some(Move {
        forward,
        side,
        turn,
        buttons,
    })
}

/// A packet with these flags, these ask, start and player bytes, and these commands.
fn packet_of(flags: u8, numbers: (u8, u8, u8), commands: &[TicCmd]) -> Packet
    ensures { result.flags ≡ flags }
{
    let (ask, start, player) = numbers;
    let mut cmds = ArrayVec::new();
    let _ = cmds.try_extend_from_slice(commands);
    Packet {
        flags,
        ask,
        start,
        player,
        cmds,
    }
}

/// The datagram of such a packet.
fn datagram(flags: u8, numbers: (u8, u8, u8), commands: &[TicCmd]) -> ArrayVec<u8, 104>
    requires { flags < 16 }
{
    encode(&packet_of(flags, numbers, commands))
}
