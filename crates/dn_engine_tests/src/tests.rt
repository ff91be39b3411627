//! A game of two locksteps, from the opening to the leave of the second player.

use crate::play;
use dn_lockstep::{MOST_AHEAD, WIDEST_AHEAD};
use dn_machine::{Cause, Phase};
use dn_setup::Settings;
use dn_tic::Command;
use std::process::Abort;
use std::test::Fail;

/// How many rounds are played. The first starts the game, and each of the others runs a tic.
const ROUNDS: usize = 40;

/// A command that differs from round to round, and from player to player.
fn command(round: u8, player: u8) -> Command {
    Command {
        forward: round.wrapping_sub(20).cast_signed(),
        side: player.wrapping_sub(round).cast_signed(),
        turn: u16::from(round)
            .wrapping_mul(300)
            .wrapping_sub(6000)
            .cast_signed(),
        chat: b'a' + round % 26,
        buttons: 0x84,
    }
}

/// What a demo of the game has: its header, and five bytes for each command of each tic.
fn demo_of(view: u8, text: &mut [u8; 403]) {
    text[..13].copy_from_slice(&[111, 2, 1, 1, 0, 0, 0, 0, view, 1, 1, 0, 0]);
    for (place, bytes) in text[13..].chunks_exact_mut(5).enumerate() {
        let made = command(((place / 2 + 1) % 256) as u8, (place % 2) as u8);
        let [low, high] = made.turn.to_le_bytes();
        bytes.copy_from_slice(&[
            made.forward.cast_unsigned(),
            made.side.cast_unsigned(),
            low,
            high,
            made.buttons,
        ]);
    }
}

#[test]
fn two_play_and_one_leaves(rt: HostRuntime) -> Result<(), Fail> {
    let settings = Settings::new(2, 0, false, false, 1, 1)?;
    let mut commands = [[Command::default(); 2]; ROUNDS];
    for (round, both) in commands.iter_mut().enumerate() {
        let round = (round % 256) as u8;
        *both = [command(round, 0), command(round, 1)];
    }
    for ahead in [1, MOST_AHEAD, WIDEST_AHEAD] {
        let pair = play(rt.alloc(), settings, 1024, ahead, &commands)?;
        let (first, second) = (&pair.first, &pair.second);
        let mut text = [0; 403];
        demo_of(0, &mut text);
        assert!(&rt; first.demo() == text.as_slice());
        demo_of(1, &mut text);
        let Some((marker, rest)) = second.demo().split_last() else {
            return Err("no demo".into());
        };
        assert_eq!(&rt; *marker, 0x80);
        assert!(&rt; rest == text.as_slice());
        assert_eq!(&rt; first.phase(), Phase::Playing);
        assert_eq!(&rt; second.phase(), Phase::Ended(Cause::Quit));
        assert_eq!(&rt; first.end(1), Some(39));
        // The last command that the second player made, as the first has it: its mark is the number of tics
        // that the second player's world had run twelve tics earlier.
        let Some(last) = first.command(1, 38) else {
            return Err("no command".into());
        };
        assert_eq!(&rt; last.chat, b'n');
        assert_eq!(&rt; last.mark, 26);
    }
    Ok(())
}
