//! The key player's choice of game, and what a game starts from.

ghost use Rattle.std.specs.Prelude.{◌≡◌};

use std::marker::Model;
use thiserror::Error;

/// The key player's choice of game, always in range.
#[derive(Clone, Copy, Debug, PartialEq, Eq)]
pub struct Settings {
    skill: u8,
    deathmatch: u8,
    no_monsters: bool,
    respawn: bool,
    episode: u8,
    map: u8,
}

/// The first field of a choice that is out of range.
#[derive(Clone, Copy, Debug, PartialEq, Eq, Error)]
pub enum SettingsFault {
    /// Skill above 4.
    #[error("the skill is out of range")]
    Skill,
    /// Deathmatch above 2.
    #[error("deathmatch is out of range")]
    Deathmatch,
    /// Episode other than 1 to 3.
    #[error("the episode is out of range")]
    Episode,
    /// Map other than 1 to 32.
    #[error("the map is out of range")]
    Map,
}

impl Model for Settings {
    ghost use Rattle.dn_setup.specs.Settings.{Settings as Choice, IsSettings, choice};

    ghost Value = { Choice };

    ghost view = { λ s. choice s.skill s.deathmatch s.no_monsters s.respawn s.episode s.map };

    ghost invariant = { λ s. IsSettings (choice s.skill s.deathmatch s.no_monsters s.respawn s.episode s.map) };

    ghost inverse = { λ s. record {
      skill = s.skill;
      deathmatch = s.deathmatch;
      no_monsters = s.no_monsters;
      respawn = s.respawn;
      episode = s.episode;
      map = s.map;
    } };
}

impl Settings {
    ghost use Rattle.std.specs.Prelude.{Result};
    ghost use Rattle.dn_setup.specs.{Settings.Settings, Settings.IsSkill, Settings.IsDeathmatch, Settings.IsEpisode, Settings.IsMap, Settings.IsSettings, Settings.IsCheckedAs, Settings.choice};
    ghost use Rattle.dn_setup.specs.{Settings.start_of, declared.settings.SettingsFault.SettingsFault};

    /// Skill 0 to 4, deathmatch 0 to 2, episode 1 to 3, map 1 to 32.
    pub fn new(
        skill: u8,
        deathmatch: u8,
        no_monsters: bool,
        respawn: bool,
        episode: u8,
        map: u8,
    ) -> Result<Settings, SettingsFault>
        ensures checked { IsCheckedAs (choice skill deathmatch no_monsters respawn episode map) result }
        ensures only { (r : Result Settings SettingsFault)
            → IsCheckedAs (choice skill deathmatch no_monsters respawn episode map) r → result ≡ r }
    {
        if skill > 4 {
            return Err(SettingsFault::Skill);
        }
        if deathmatch > 2 {
            return Err(SettingsFault::Deathmatch);
        }
        if !(1..=3).contains(&episode) {
            return Err(SettingsFault::Episode);
        }
        if !(1..=32).contains(&map) {
            return Err(SettingsFault::Map);
        }
        Ok(Settings {
            skill,
            deathmatch,
            no_monsters,
            respawn,
            episode,
            map,
        })
    }

    /// How hard the monsters are: 0 to 4.
    pub fn skill(&self) -> u8
        ensures value { result ≡ self.now.skill }
        ensures in_range { IsSkill result }
    {
        self.skill
    }

    /// 0 for a cooperative game, 1 for deathmatch, 2 for deathmatch with items that come back.
    pub fn deathmatch(&self) -> u8
        ensures value { result ≡ self.now.deathmatch }
        ensures in_range { IsDeathmatch result }
    {
        self.deathmatch
    }

    /// Whether the game has no monsters.
    pub fn no_monsters(&self) -> bool
        ensures { result ≡ self.now.no_monsters }
    {
        self.no_monsters
    }

    /// Whether monsters come back after they died.
    pub fn respawn(&self) -> bool
        ensures { result ≡ self.now.respawn }
    {
        self.respawn
    }

    /// The episode: 1 to 3.
    pub fn episode(&self) -> u8
        ensures value { result ≡ self.now.episode }
        ensures in_range { IsEpisode result }
    {
        self.episode
    }

    /// The map: 1 to 32.
    pub fn map(&self) -> u8
        ensures value { result ≡ self.now.map }
        ensures in_range { IsMap result }
    {
        self.map
    }

    /// What a game of these settings starts from.
    pub fn start(&self) -> Start
        ensures value { result ≡ start_of self.now }
        ensures in_range { IsSettings self.now }
    {
        Start {
            skill: self.skill,
            episode: self.episode,
            map: self.map,
            deathmatch: self.deathmatch,
            respawn: u8::from(self.respawn),
            fast: 0,
            no_monsters: u8::from(self.no_monsters),
        }
    }
}

/// What a game starts from: seven bytes, as a demo's header has them.
#[derive(Clone, Copy, Debug, PartialEq, Eq, Default)]
pub struct Start {
    /// How hard the monsters are, from 0.
    pub skill: u8,
    /// The episode, from 1.
    pub episode: u8,
    /// The map, from 1.
    pub map: u8,
    /// 0 for a cooperative game, and else the rules of deathmatch.
    pub deathmatch: u8,
    /// 1 where monsters come back after they died.
    pub respawn: u8,
    /// 1 where monsters are fast.
    pub fast: u8,
    /// 1 where there are no monsters.
    pub no_monsters: u8,
}
