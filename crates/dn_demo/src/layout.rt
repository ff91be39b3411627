//! How the bytes of a demo are laid out.

ghost use Rattle.std.specs.{Prelude.◌≡◌, Prelude.◌<◌, Prelude.◌^◌, Prelude.length, Option.option_map};
ghost use Rattle.dn_demo.specs.{Layout.layout_of, Layout.layout_by, Layout.layout_of_version, Layout.command_size, Layout.tell, Places.place};

use dn_setup::VERSION;
use dn_tic::Move;

/// The byte that ends a demo (`g_game.c`, DEMOMARKER).
pub(crate) const MARKER: u8 = 0x80;

/// How many bytes a header has.
pub(crate) const HEADER: usize = 13;

/// How many bytes a command of version 111 has.
pub(crate) const COMMAND: usize = 5;

/// The version of Doom 1.9.
const VANILLA: u8 = 109;

/// How a demo's commands are laid out, by its version.
#[derive(Clone, Copy, Debug, PartialEq, Eq)]
pub(crate) enum Layout {
    /// Of Doom 1.9: a turn has one byte.
    Vanilla,
    /// Of version 111, which is recorded here: a turn has two bytes.
    LongTics,
}

impl Layout {
    /// The layout of a version, if its demos are read.
    pub(crate) fn of(version: u8) -> Option<Layout>
        ensures { option_map layout_of result ≡ layout_of_version version }
    {
        match version {
            VANILLA => Some(Layout::Vanilla),
            VERSION => Some(Layout::LongTics),
            _ => None,
        }
    }

    /// The layout of version 111, or that of 109.
    #[inline(always)]
    pub(crate) fn by(long: bool) -> Layout
        ensures { layout_of result ≡ layout_by long }
    {
        if long {
            Layout::LongTics
        } else {
            Layout::Vanilla
        }
    }

    /// How many bytes a command has.
    #[inline(always)]
    pub(crate) fn size(self) -> usize
        ensures { result ≡ command_size (layout_of self) }
    {
        match self {
            Layout::Vanilla => 4,
            Layout::LongTics => COMMAND,
        }
    }

    /// Where a command stands, counted from 0.
    pub(crate) fn place(self, command: usize) -> usize
        requires { place (layout_of self) command < 2 ^ 64 }
        ensures { result ≡ place (layout_of self) command }
    {
        HEADER + self.size() * command
    }

    /// The move of a command.
    #[inline(always)]
    pub(crate) fn tell(self, command: &[u8]) -> Move
        requires { length command.now ≡ command_size (layout_of self) }
        ensures { result ≡ tell (layout_of self) command.now }
    {
        let turn = match self {
            Layout::Vanilla => u16::from(command[2]) * 256,
            Layout::LongTics => u16::from_le_bytes([command[2], command[3]]),
        };
        Move {
            forward: command[0].cast_signed(),
            side: command[1].cast_signed(),
            turn: turn.cast_signed(),
            buttons: command[command.len() - 1],
        }
    }
}
