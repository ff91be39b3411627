//! What is in a demo, as plain numbers.

ghost use Rattle.std.specs.Prelude.{◌≡◌};
ghost use Rattle.zirmegat.specs.Demos.{demo_told};

use dn_demo::Demo;

/// What the game of a demo started from: seven bytes, as the header has them.
#[repr(C)]
#[derive(Clone, Copy, Debug, PartialEq, Eq)]
pub struct StartFields {
    /// How hard the monsters are, from 0.
    pub skill: u8,
    /// The episode, from 1.
    pub episode: u8,
    /// The map, from 1.
    pub map: u8,
    /// 0 for a cooperative game, and else the rules of deathmatch.
    pub deathmatch: u8,
    /// 1 where monsters come back after they died.
    pub respawn: u8,
    /// 1 where monsters are fast.
    pub fast: u8,
    /// 1 where there are no monsters.
    pub no_monsters: u8,
}

/// What a demo has beside its rows.
#[repr(C)]
#[derive(Clone, Copy, Debug, PartialEq, Eq)]
pub struct DemoAnswer {
    /// How many whole tics there are.
    pub tics: usize,
    /// How many commands stand between the last whole tic and the marker.
    pub cut: usize,
    /// How many bytes stand after the marker.
    pub after: usize,
    /// 109 or 111.
    pub version: u8,
    /// Whose view the demo shows.
    pub view: u8,
    /// What the game started from.
    pub start: StartFields,
    /// 1 for each seat that has a player.
    pub present: [u8; 4],
}

impl DemoAnswer {
    pub(crate) fn of(demo: &Demo) -> DemoAnswer
        ensures { result ≡ demo_told demo.now }
    {
        let start = demo.start();
        let present = demo.present();
        DemoAnswer {
            tics: demo.tics(),
            cut: demo.cut(),
            after: demo.after(),
            version: demo.version(),
            view: demo.view(),
            start: StartFields {
                skill: start.skill,
                episode: start.episode,
                map: start.map,
                deathmatch: start.deathmatch,
                respawn: start.respawn,
                fast: start.fast,
                no_monsters: start.no_monsters,
            },
            present: [
                u8::from(present[0]),
                u8::from(present[1]),
                u8::from(present[2]),
                u8::from(present[3]),
            ],
        }
    }
}
