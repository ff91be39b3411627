//! Why a call fails, as a number.

ghost use Rattle.std.specs.Prelude.{◌≡◌};
ghost use Rattle.zirmegat.specs.Faults.{demo_code, done_code, fault_code, lobby_code, node_code, settings_code};

use dn_demo::DemoFault;
use dn_lockstep::NodeFault;
use dn_session::LobbyFault;
use dn_setup::SettingsFault;

/// A call did what it is for.
pub(crate) const DONE: u32 = 0;

/// Why a call fails.
#[derive(Clone, Copy, Debug, PartialEq, Eq)]
pub(crate) enum Fault {
    /// The handle is of another kind.
    Handle,
    /// A struct has a size that is not known.
    Size,
    /// There is no memory.
    Memory,
    /// There is too little room.
    Room,
    /// It is not possible now.
    NotNow,
    /// The key was never set.
    Key,
    /// The random bytes were never set.
    Random,
    /// The settings of the game are out of range.
    Settings(SettingsFault),
    /// The other terms are.
    Lobby(LobbyFault),
    /// There is no node.
    Node(NodeFault),
    /// Bytes are no text of a key.
    Text,
    /// Bytes are no demo.
    Demo(DemoFault),
    /// A demo has no such tic.
    Tic,
    /// The window is full.
    Full,
}

/// Why settings are refused.
fn settings_code(fault: SettingsFault) -> u32
    ensures { result ≡ settings_code fault }
{
    match fault {
        SettingsFault::Skill => 14,
        SettingsFault::Deathmatch => 15,
        SettingsFault::Episode => 16,
        SettingsFault::Map => 17,
    }
}

/// Why the other terms are.
fn lobby_code(fault: LobbyFault) -> u32
    ensures { result ≡ lobby_code fault }
{
    match fault {
        LobbyFault::Players => 8,
        LobbyFault::Ahead => 9,
        LobbyFault::Rate => 10,
        LobbyFault::Limit => 11,
        LobbyFault::Policy => 12,
        LobbyFault::Seat => 13,
    }
}

/// Why there is no node.
fn node_code(fault: NodeFault) -> u32
    ensures { result ≡ node_code fault }
{
    match fault {
        NodeFault::Memory => 3,
        NodeFault::Key => 5,
        NodeFault::Players => 8,
        NodeFault::Ahead => 9,
        NodeFault::Limit => 11,
        NodeFault::Me => 24,
    }
}

/// Why bytes are no demo.
fn demo_code(fault: DemoFault) -> u32
    ensures { result ≡ demo_code fault }
{
    match fault {
        DemoFault::Memory => 3,
        DemoFault::Short => 19,
        DemoFault::Version => 20,
        DemoFault::NoPlayers => 21,
        DemoFault::NoMarker => 22,
    }
}

impl Fault {
    /// Its number.
    pub(crate) fn code(self) -> u32
        ensures { result ≡ fault_code self }
    {
        match self {
            Fault::Handle => 1,
            Fault::Size => 2,
            Fault::Memory => 3,
            Fault::Room => 4,
            Fault::NotNow => 5,
            Fault::Key => 6,
            Fault::Random => 7,
            Fault::Settings(fault) => settings_code(fault),
            Fault::Lobby(fault) => lobby_code(fault),
            Fault::Node(fault) => node_code(fault),
            Fault::Text => 18,
            Fault::Demo(fault) => demo_code(fault),
            Fault::Tic => 23,
            Fault::Full => 25,
        }
    }
}

/// Whether a call did what it is for, or it is not possible now.
pub(crate) fn done_code(done: bool) -> u32
    ensures { result ≡ done_code done }
{
    if done { DONE } else { Fault::NotNow.code() }
}
