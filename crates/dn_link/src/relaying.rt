//! The commands that are handed on.

ghost use Rattle.std.specs.{Prelude.{◌≡◌, ◌≤◌, ◌<◌, ◌+◌, ◌^◌, List, length, ◌++◌, ◌∷◌, ◌⊎◌, [], All, IfSome, Some}, List.flat_map};
ghost use Rattle.dn_tic.specs.{declared.command.TicCmd.TicCmd, Command.command_bytes};
ghost use Rattle.dn_lockstep.specs.Contents.{contents};
ghost use Rattle.dn_link.specs.{declared.bundle.{Relay.Relay as Handing, Part.TheVariants.Relay as of_relay}, Relays.AreTold, Text.{IsPart, IsRelay}, Packing.parts_room};
ghost use Rattle.dn_link.specs.Relays.{IsFrom};

use crate::bundle::{Part, Relay, Run};
use crate::room::parts_room;
use arrayvec::ArrayVec;
use dn_lockstep::Lockstep;
use dn_seal::append;

/// The commands of a player from a tic on, as many as this at most, and none past one that is missing.
#[tactic(auto, using(crate::proofs::Handing::length_commands, crate::proofs::Handing::so_goes_on))]
pub(crate) fn relay_of(lockstep: &Lockstep, player: u8, start: u32, most: u8) -> Relay
    requires { most ≤ 24 }
    ensures player { result.player ≡ player }
    ensures start { result.run.start ≡ start }
    ensures told { (commands : List TicCmd) × (result.run.commands.items ≡ flat_map command_bytes commands)
        × AreTold (contents lockstep.now) player start commands × (start + length commands ≤ 2 ^ 32)
        × IsFrom (contents lockstep.now) player start most commands }
{
    let mut commands = ArrayVec::new();
    'commands: for done in 0..most {
        let Some(tic) = start.checked_add(u32::from(done)) else {
            break;
        };
        let Some(command) = lockstep.command(player, tic) else {
            break;
        };
        append(&mut commands, &command.to_bytes());
    }
    Relay {
        player,
        run: Run { start, commands },
    }
}

/// The parts of a datagram, and behind them commands that are handed on, if there are any and there is room.
#[tactic(auto, using(crate::proofs::Packings::pushed_room))]
pub(crate) fn with_relay(parts: ArrayVec<Part, 24>, relay: Option<Relay>) -> ArrayVec<Part, 24>
    requires fit { All IsPart parts.items }
    requires short { parts_room parts.items ≤ 1118 }
    requires run { IfSome relay IsRelay }
    ensures fit { All IsPart result.items }
    ensures short { parts_room result.items ≤ 1118 }
    ensures added { (result.items ≡ parts.items)
        ⊎ ((one : Handing) × (relay ≡ Some one) × (result.items ≡ parts.items ++ of_relay one ∷ [])) }
{
    let Some(relay) = relay else {
        return parts;
    };
    if parts.len() > 23 || parts_room(parts.as_slice()) + 6 + relay.run.commands.len() > 1118 {
        return parts;
    }
    let mut all = parts;
    all.push(Part::Relay(relay));
    all
}
