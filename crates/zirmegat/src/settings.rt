//! The choice of game as plain numbers.

ghost use Rattle.std.specs.Prelude.{◌≡◌};
ghost use Rattle.dn_setup.specs.Settings.{IsCheckedAs};
ghost use Rattle.zirmegat.specs.Choice.{choice_in, choice_told, settings_told};

use dn_setup::{Settings, SettingsFault};

/// The choice of game: skill 0 to 4, deathmatch 0 to 2, episode 1 to 3, map 1 to 32, and two flags, which are 0
/// or not.
#[repr(C)]
#[derive(Clone, Copy, Debug, PartialEq, Eq)]
pub struct GameSettings {
    /// How hard the monsters are.
    pub skill: u8,
    /// 0 for a cooperative game, and else which deathmatch.
    pub deathmatch: u8,
    /// Whether there are no monsters.
    pub no_monsters: u8,
    /// Whether monsters come back after they died.
    pub respawn: u8,
    /// The episode.
    pub episode: u8,
    /// The map.
    pub map: u8,
}

impl GameSettings {
    /// A choice that is not known.
    pub(crate) const NONE: GameSettings = GameSettings {
        skill: 0,
        deathmatch: 0,
        no_monsters: 0,
        respawn: 0,
        episode: 0,
        map: 0,
    };

    /// The settings of these numbers, or the first that is out of range.
    pub(crate) fn checked(&self) -> Result<Settings, SettingsFault>
        ensures { IsCheckedAs (choice_in self.now) result }
    {
        Settings::new(
            self.skill,
            self.deathmatch,
            self.no_monsters != 0,
            self.respawn != 0,
            self.episode,
            self.map,
        )
    }

    /// The numbers of settings.
    pub(crate) fn of(settings: Settings) -> GameSettings
        ensures { result ≡ choice_told settings }
    {
        GameSettings {
            skill: settings.skill(),
            deathmatch: settings.deathmatch(),
            no_monsters: u8::from(settings.no_monsters()),
            respawn: u8::from(settings.respawn()),
            episode: settings.episode(),
            map: settings.map(),
        }
    }

    /// The same, all 0 where they are not known.
    pub(crate) fn if_known(settings: Option<Settings>) -> GameSettings
        ensures { result ≡ settings_told settings }
    {
        match settings {
            Some(settings) => GameSettings::of(settings),
            None => GameSettings::NONE,
        }
    }
}
