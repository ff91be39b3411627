//! A demo that is recorded and played, and demos that are refused memory.

use super::moved;
use dn_demo::{Demo, DemoFault, Recorder, RecorderFault, UpgradeFault, play, upgrade};
use dn_setup::Start;
use dn_shared_tests::{granted, holds, must, same};
use dn_world::{Walk, World};

/// Two tics of players 0 and 1.
const RECORDED: [u8; 34] = [
    0x6F, 3, 1, 7, 1, 0, 0, 1, 1, 1, 1, 0, 0, 0x32, 0, 0, 0, 0, 0, 0, 0, 1, 0, 0xCE, 0, 0, 0, 1,
    0x19, 0x18, 0, 0x40, 0, 0x80,
];

#[test]
fn a_recorded_demo_is_played(rt: HostRuntime) {
    let rt = &rt;
    let mut recorder = must!(rt; Recorder::new(rt.alloc(), 1_024));
    recorder.head(&Start::default(), 0, [true, true, false, false]);
    let row = [moved(0, 0, 0, 1), moved(0, 0, 0, 0), None, None];
    assert!(rt; recorder.row(&row));
    recorder.close();
    let demo = must!(rt; Demo::read(rt.alloc(), recorder.bytes()));
    let mut walk = Walk::new();
    same!(rt; play(&demo, &mut walk), 1);
    same!(rt; walk.mark(0), 1);
}

/// Each request for memory may be refused: then the answer says so, and there is no other.
#[test]
fn refused_memory_is_told(rt: HostRuntime) {
    let rt = &rt;
    let made = Recorder::new(rt.alloc(), 1_024);
    if let Some(recorder) = granted!(rt; "Recorder::new", made, RecorderFault::Memory) {
        holds!(rt; recorder.bytes().is_empty());
    }
    let read = Demo::read(rt.alloc(), &RECORDED);
    if let Some(demo) = granted!(rt; "Demo::read", read, DemoFault::Memory) {
        same!(rt; demo.tics(), 2);
        let upgraded = upgrade(rt.alloc(), &demo, 1_024);
        if let Some(recorder) = granted!(rt; "upgrade", upgraded, UpgradeFault::Memory) {
            same!(rt; recorder.bytes(), RECORDED.as_slice());
        }
    }
}
