//! The options of the command line, read: what a parsed command line says of the game, the storm, the rounds.
//! A function returns None only if an option is missing, is not a number, or is out of range. The program meets that
//! only of what may be left out, `me`, `players`, `port` and `key` of a session: of all else its parser has a default,
//! and it refuses the rest.

ghost use Rattle.std.specs.Prelude.{codes, ◌≡◌};
ghost use Rattle.dn_program.specs.OptionValues.{Finds, IsNumberOf, IsByteOf, IsFlagOf, IsSettingsOf, IsLimitOf, IsGameOf, IsStormOf, IsRoundsOf, IsPaceOf, IsPortOf};
ghost use Rattle.std.specs.Option.{option_map};
ghost use Rattle.clap.specs.Matches.{found_of, first_value};

use clap::ArgMatches;
use dn_demo::is_limit;
use dn_game::GameConfig;
use dn_lockstep::is_game;
use dn_netgame::line::is_base;
use dn_setup::Settings;

/// The value of an option.
fn value(matches: &ArgMatches<'_>, name: &str) -> Option<u32>
    ensures { Finds (IsNumberOf matches.now name.now) result }
{
    matches.get_one::<u32>(name)
}

/// The value of an option, if it is no more than a byte holds.
fn byte(matches: &ArgMatches<'_>, name: &str) -> Option<u8>
    ensures { Finds (IsByteOf matches.now name.now) result }
{
    u8::try_from(value(matches, name)?).ok()
}

/// Whether a flag was given.
fn flag(matches: &ArgMatches<'_>, name: &str) -> bool
    ensures { IsFlagOf matches.now name.now result }
{
    matches.get_one::<bool>(name).unwrap_or(false)
}

/// The choice of game.
fn settings(matches: &ArgMatches<'_>) -> Option<Settings>
    ensures { Finds (IsSettingsOf matches.now) result }
{
    let made = Settings::new(
        byte(matches, "skill")?,
        byte(matches, "deathmatch")?,
        flag(matches, "nomonsters"),
        flag(matches, "respawn"),
        byte(matches, "episode")?,
        byte(matches, "map")?,
    );
    made.ok()
}

/// Most bytes of a demo.
pub fn limit(matches: &ArgMatches<'_>) -> Option<u32>
    ensures { Finds (IsLimitOf matches.now) result }
{
    let limit = value(matches, "limit")?;
    if is_limit(limit) { Some(limit) } else { None }
}

/// The rules of a game, and how many players it has.
pub fn game(matches: &ArgMatches<'_>) -> Option<(GameConfig, u8)>
    ensures { Finds (IsGameOf matches.now) result }
{
    let players = byte(matches, "players")?;
    if !is_game(usize::from(players)) {
        return None;
    }
    let config = GameConfig {
        settings: settings(matches)?,
        extra: flag(matches, "extra"),
        limit: limit(matches)?,
    };
    Some((config, players))
}

/// The seed of a storm, how many events it has, and how many rounds without losses come after it.
pub fn storm(matches: &ArgMatches<'_>) -> Option<(u64, u32, u32)>
    ensures { Finds (IsStormOf matches.now) result }
{
    let seed = value(matches, "seed")?;
    let count = value(matches, "count")?;
    let calm = value(matches, "calm")?;
    Some((u64::from(seed), count, calm))
}

/// The seed of the keys, how many rounds there are, and the port of player 0.
pub fn rounds(matches: &ArgMatches<'_>) -> Option<(u64, u32, u16)>
    ensures { Finds (IsRoundsOf matches.now) result }
{
    let seed = value(matches, "seed")?;
    let count = value(matches, "rounds")?;
    let base = u16::try_from(value(matches, "base")?).ok()?;
    if !is_base(base) {
        return None;
    }
    Some((u64::from(seed), count, base))
}

/// Which player this is.
pub fn me(matches: &ArgMatches<'_>) -> Option<u8>
    ensures { Finds (IsByteOf matches.now (codes "me")) result }
{
    byte(matches, "me")
}

/// Whether the bytes of the demo are printed.
pub fn raw(matches: &ArgMatches<'_>) -> bool
    ensures { IsFlagOf matches.now (codes "raw") result }
{
    flag(matches, "raw")
}

/// Whether each event is told.
pub fn trace(matches: &ArgMatches<'_>) -> bool
    ensures { IsFlagOf matches.now (codes "trace") result }
{
    flag(matches, "trace")
}

/// Whether the events of a storm are printed as a script.
pub fn script(matches: &ArgMatches<'_>) -> bool
    ensures { IsFlagOf matches.now (codes "script") result }
{
    flag(matches, "script")
}

/// What a session is told beside its game.
#[derive(Clone, Copy, Debug, PartialEq, Eq)]
pub struct Pace {
    /// What its key presses are drawn from.
    pub seed: u64,
    /// How many seconds it plays from the start of the game; 0 is until it is interrupted.
    pub seconds: u32,
}

/// How one player's session goes.
pub fn pace_of(matches: &ArgMatches<'_>) -> Option<Pace>
    ensures { Finds (IsPaceOf matches.now) result }
{
    let seed = value(matches, "seed")?;
    let seconds = value(matches, "seconds")?;
    Some(Pace {
        seed: u64::from(seed),
        seconds,
    })
}

/// The UDP port.
pub fn port(matches: &ArgMatches<'_>) -> Option<u16>
    ensures { Finds (IsPortOf matches.now) result }
{
    u16::try_from(value(matches, "port")?).ok()
}

/// How many tics a second are played.
pub fn rate(matches: &ArgMatches<'_>) -> Option<u8>
    ensures { Finds (IsByteOf matches.now (codes "rate")) result }
{
    byte(matches, "rate")
}

/// How many players a game has to have.
pub fn players(matches: &ArgMatches<'_>) -> Option<u8>
    ensures { Finds (IsByteOf matches.now (codes "players")) result }
{
    byte(matches, "players")
}

/// The file of the key.
pub fn key<'a>(matches: &ArgMatches<'a>) -> Option<&'a str>
    ensures { option_map (λ file. file.now) result ≡ first_value (found_of matches.now) (codes "key") }
{
    matches.get_str("key")
}

/// The file that a key is written to.
pub fn file<'a>(matches: &ArgMatches<'a>) -> Option<&'a str>
    ensures { option_map (λ file. file.now) result ≡ first_value (found_of matches.now) (codes "file") }
{
    matches.get_str("file")
}

/// The address of the host.
pub fn address<'a>(matches: &ArgMatches<'a>) -> Option<&'a str>
    ensures { option_map (λ address. address.now) result
        ≡ first_value (found_of matches.now) (codes "address") }
{
    matches.get_str("address")
}

/// Whether objects are printed in place of lines.
pub fn json(matches: &ArgMatches<'_>) -> bool
    ensures { IsFlagOf matches.now (codes "json") result }
{
    flag(matches, "json")
}
