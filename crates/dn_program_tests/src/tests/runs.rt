//! Runs that no subcommand makes: a script told as itself, and games without a calm.

ghost use Rattle.std.specs.Prelude.{◌≡◌, IfOk};

use dn_game::GameConfig;
use dn_netgame::{Script, Storm, run_sim, run_storm, tell_sim, tell_storm};
use dn_setup::{Settings, SettingsFault};
use dn_shared_tests::{must, same};

/// How many bytes a demo may have where nothing is said.
pub(crate) const DEFAULT_LIMIT: u32 = 131_072;

/// The first events for seed 42, by the words of the generator's published reference code.
const DRAWN: &str = "send 1 0\nbuild 1 blrdt457\nrun 1\nbuild 0 fradtsx134\nsend 1 0\nrun 0\n";

/// Skill 2, episode 1, map 1, and demos of at most `limit` bytes.
fn rules(limit: u32) -> Result<GameConfig, SettingsFault>
    ensures { IfOk result (λ config. config.limit ≡ limit) }
{
    Ok(GameConfig {
        settings: Settings::new(2, 0, false, false, 1, 1)?,
        extra: false,
        limit,
    })
}

#[test]
fn a_script_is_written_as_itself(ref rt: HostRuntime) {
    let quit = b"quit 0\n".as_slice();
    for (players, script) in [(2, DRAWN.as_bytes()), (2, quit), (3, b"".as_slice())] {
        let mut input = script;
        let mut output = Vec::new(rt.alloc());
        let game = must!(rt; rules(DEFAULT_LIMIT));
        let status = tell_sim::<Script, _, _>(rt.alloc(), game, players, &mut input, &mut output);
        same!(rt; status, Ok(0), players);
        same!(rt; output.as_slice(), script, players);
    }
}

#[test]
fn a_storm_is_written_as_its_script(rt: HostRuntime) {
    let rt = &rt;
    for calm in [None, Some(0), Some(4)] {
        let mut output = Vec::new(rt.alloc());
        let game = must!(rt; rules(DEFAULT_LIMIT));
        let storm = Storm {
            seed: 42,
            count: 6,
            calm,
        };
        let status = tell_storm::<Script, _>(rt.alloc(), game, 2, storm, &mut output);
        same!(rt; status, Ok(0), calm);
        same!(rt; output.as_slice(), DRAWN.as_bytes(), calm);
    }
}

#[test]
fn a_script_is_shown(rt: HostRuntime) {
    let rt = &rt;
    let mut input = b"quit 0".as_slice();
    let mut output = Vec::new(rt.alloc());
    let game = must!(rt; rules(DEFAULT_LIMIT));
    let status = run_sim(rt.alloc(), game, 2, &mut input, &mut output);
    let text = b"node 0 ended quit made 0 ran 0 got 0 0 demo 0\n\
        node 1 listening made 0 ran 0 got 0 0 demo 0\n\
        events 1 refused 0 flights 0\n";
    same!(rt; status, Ok(0));
    same!(rt; output.as_slice(), text.as_slice());
}

/// It is that of `netgame storm`, which a calm of no rounds follows.
#[test]
fn without_calm_there_is_the_storm(rt: HostRuntime) {
    let rt = &rt;
    let mut output = Vec::new(rt.alloc());
    let game = must!(rt; rules(DEFAULT_LIMIT));
    let status = run_storm(rt.alloc(), game, 2, 1, 1000, &mut output);
    let text = b"node 0 playing made 39 ran 34 got 39 36 demo 353\n\
        node 1 playing made 36 ran 32 got 37 36 demo 333\n\
        events 1000 refused 0 flights 276\n";
    same!(rt; status, Ok(0));
    same!(rt; output.as_slice(), text.as_slice());
}
