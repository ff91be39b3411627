//! Why what came is dropped.

ghost use Rattle.std.specs.Prelude.{◌≡◌};
ghost use Rattle.dn_machine.specs.Drops.{drop_word};

/// Why what came changed nothing. Its number, `drop as u8`, is what [`crate::Heard::Dropped`] holds.
#[derive(Clone, Copy, Debug, PartialEq, Eq)]
pub enum Dropped {
    /// The datagram is too short.
    Short = 1,
    /// It has too many commands.
    Many,
    /// It has another length than its count of commands tells.
    Length,
    /// Its sum is wrong.
    Sum,
    /// It does not come from a peer.
    Stranger,
    /// It is set-up, and the node does not listen or its sender is not the key player.
    OutOfPlace,
    /// Its settings are those of another version of the game.
    Version,
    /// Its settings are out of range.
    Range,
    /// It tells the node to end the game.
    Kill,
    /// Its first tic lies below 0.
    Tic,
    /// It has a command that would end a demo.
    Command,
    /// There is no room for its commands yet.
    Overrun,
    /// The node does not play.
    NotPlaying,
    /// It ends where it cannot.
    End,
    /// Its sender is given up.
    GivenUp,
}

/// What is printed of a drop, by its number: a space and a word or two, or nothing where no drop has the number.
pub fn drop_word(number: u8) -> &'static str
    ensures { result.now ≡ drop_word number }
{
    match number {
        1 => " short",
        2 => " many",
        3 => " length",
        4 => " sum",
        5 => " stranger",
        6 => " set-up",
        7 => " version",
        8 => " range",
        9 => " kill",
        10 => " tic",
        11 => " command",
        12 => " overrun",
        13 => " not playing",
        14 => " end",
        15 => " given up",
        _ => "",
    }
}
