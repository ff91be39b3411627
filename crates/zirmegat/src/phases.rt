//! Where a node stands, as plain numbers.

ghost use Rattle.std.specs.Prelude.{◌≡◌};
ghost use Rattle.zirmegat.specs.Phases.{ended_told, phase_told};

use dn_lockstep::{Cause, Phase};

/// Where a node stands. `code` is 1 for one that listens, 2 for one that gathers, 3 for one
/// that plays and 4 for one that has ended. `cause` is 0 but for a node that has ended: 1 where it quit, 2
/// where its demo was full or the most tics were run, 3 where the mark of `player` was `was` in place of
/// `should`.
#[repr(C)]
#[derive(Clone, Copy, Debug, PartialEq, Eq)]
pub struct PhaseAnswer {
    /// 1 to 4, as above.
    pub code: u32,
    /// 0 to 3, as above.
    pub cause: u32,
    /// The mark of the command, where `cause` is 3.
    pub was: i16,
    /// The mark of the node's own world, where `cause` is 3.
    pub should: i16,
    /// Whose mark it is, where `cause` is 3.
    pub player: u32,
}

impl PhaseAnswer {
    /// Where nothing is told.
    const NONE: PhaseAnswer = PhaseAnswer {
        code: 0,
        cause: 0,
        was: 0,
        should: 0,
        player: 0,
    };

    fn ended(cause: Cause) -> PhaseAnswer
        ensures { result ≡ ended_told cause }
    {
        let ended = PhaseAnswer {
            code: 4,
            ..PhaseAnswer::NONE
        };
        match cause {
            Cause::Quit => PhaseAnswer { cause: 1, ..ended },
            Cause::Full => PhaseAnswer { cause: 2, ..ended },
            Cause::Inconsistent {
                player,
                was,
                should,
            } => PhaseAnswer {
                cause: 3,
                was,
                should,
                player: u32::from(player),
                ..ended
            },
        }
    }

    pub(crate) fn of(phase: Phase) -> PhaseAnswer
        ensures { result ≡ phase_told phase }
    {
        let code = match phase {
            Phase::Listening => 1,
            Phase::Gathering => 2,
            Phase::Playing => 3,
            Phase::Ended(cause) => return PhaseAnswer::ended(cause),
        };
        PhaseAnswer {
            code,
            ..PhaseAnswer::NONE
        }
    }
}
