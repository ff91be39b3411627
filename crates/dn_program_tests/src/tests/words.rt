//! Words and lines that no script and no storm leads to.

use super::runs::DEFAULT_LIMIT;
use arrayvec::ArrayVec;
use dn_game::{Done, Event, Refusal};
use dn_netgame::text::{push_answer, push_node, push_trace_line};
use dn_node::{Config, Heard, Made, Node, Ran};
use dn_packet::{Packet, encode};
use dn_shared_tests::{must, same};
use dn_tic::{Command, Keys, TicCmd};
use dn_world::Walk;
use std::alloc::Global;
use std::test::Fail;

fn words(alloc: Global, answer: Result<Done, Refusal>) -> Result<String, Fail> {
    let mut text = String::new(alloc);
    push_answer(&mut text, answer)?;
    Ok(text)
}

#[test]
fn answers_are_told_in_words(rt: HostRuntime) {
    let rt = &rt;
    let inconsistent = Ran::Inconsistent {
        player: 1,
        was: -5,
        should: 28_672,
    };
    let rows = [
        (Ok(Done::Built(Made::Made(3))), "built 3"),
        (Ok(Done::Sent(7)), "sent 7"),
        (Ok(Done::Heard(Heard::Taken(2))), "taken 2"),
        (Ok(Done::Heard(Heard::Dropped(0))), "dropped 0"),
        (Ok(Done::Heard(Heard::Dropped(1))), "dropped 1 short"),
        (Ok(Done::Heard(Heard::Dropped(2))), "dropped 2 many"),
        (Ok(Done::Heard(Heard::Dropped(3))), "dropped 3 length"),
        (Ok(Done::Heard(Heard::Dropped(4))), "dropped 4 sum"),
        (Ok(Done::Heard(Heard::Dropped(5))), "dropped 5 stranger"),
        (Ok(Done::Heard(Heard::Dropped(6))), "dropped 6 set-up"),
        (Ok(Done::Heard(Heard::Dropped(7))), "dropped 7 version"),
        (Ok(Done::Heard(Heard::Dropped(8))), "dropped 8 range"),
        (Ok(Done::Heard(Heard::Dropped(9))), "dropped 9 kill"),
        (Ok(Done::Heard(Heard::Dropped(10))), "dropped 10 tic"),
        (Ok(Done::Heard(Heard::Dropped(11))), "dropped 11 command"),
        (Ok(Done::Heard(Heard::Dropped(12))), "dropped 12 overrun"),
        (
            Ok(Done::Heard(Heard::Dropped(13))),
            "dropped 13 not playing",
        ),
        (Ok(Done::Heard(Heard::Dropped(14))), "dropped 14 end"),
        (Ok(Done::Heard(Heard::Dropped(15))), "dropped 15 given up"),
        (Ok(Done::Heard(Heard::Dropped(255))), "dropped 255"),
        (Ok(Done::Ran(Ran::Waiting(1))), "waiting 1"),
        (Ok(Done::Ran(Ran::DemoFull)), "demo full"),
        (
            Ok(Done::Ran(inconsistent)),
            "inconsistent 1 was -5 should 28672",
        ),
        (Err(Refusal::Far), "refused 3 far"),
        (Err(Refusal::Memory), "refused 5 no memory"),
    ];
    for (answer, text) in rows {
        same!(rt; must!(rt; words(rt.alloc(), answer)).as_str(), text);
    }
}

/// The line of an event in a trace.
fn trace(alloc: Global, number: usize, event: Event, made: Made) -> Result<String, Fail> {
    let mut text = String::new(alloc);
    push_trace_line(&mut text, number, event, Ok(Done::Built(made)))?;
    Ok(text)
}

#[test]
fn given_commands_are_told_whole(rt: HostRuntime) {
    let rt = &rt;
    let least = Command {
        forward: -128,
        side: -1,
        turn: -32_768,
        chat: 0,
        buttons: 129,
    };
    let most = Command {
        forward: 127,
        side: 24,
        turn: 640,
        chat: 255,
        buttons: 4,
    };
    let rows = [
        (
            (0, 1, least, Made::Made(7)),
            "event 0 give 1 forward -128 side -1 turn -32768 chat 0 buttons 129: built 7\n",
        ),
        (
            (12, 0, most, Made::Full),
            "event 12 give 0 forward 127 side 24 turn 640 chat 255 buttons 4: full\n",
        ),
    ];
    for ((number, node, command, made), line) in rows {
        let event = Event::Give { node, command };
        same!(rt; must!(rt; trace(rt.alloc(), number, event, made)).as_str(), line);
    }
}

/// A packet of player 0 with one command, which goes forward by 50.
fn forward_by_fifty(tic: u8) -> ArrayVec<u8, 104> {
    let mut cmds = ArrayVec::new();
    cmds.push(TicCmd {
        forward: 50,
        side: 0,
        turn: 0,
        mark: 0,
        chat: 0,
        buttons: 0,
    });
    encode(&Packet {
        flags: 0,
        ask: 0,
        start: tic,
        player: 0,
        cmds,
    })
}

/// No command of player 0 carries its mark, so that its thirteenth is found out.
#[test]
fn inconsistent_nodes_are_shown(ref rt: HostRuntime) {
    let config = Config {
        players: 2,
        me: 1,
        extra: false,
        limit: DEFAULT_LIMIT,
        settings: None,
    };
    let mut node = must!(rt; Node::new(rt.alloc(), config, Walk::new()));
    let started = [0x69, 0x86, 0x92, 0x21, 0x02, 0x41, 0x6F, 0x00];
    node.receive(0, &started);
    for tic in 0..14 {
        node.build(Keys::from_bits(0));
        node.receive(0, forward_by_fifty(tic).as_slice());
        node.run();
    }
    let mut text = String::new(rt.alloc());
    must!(rt; push_node(&mut text, &node, false));
    must!(rt; push_node(&mut text, &node, true));
    same!(rt; text.as_str(), "node 1 ended inconsistent 0 made 14 ran 13 got 14 14 demo 144\n\
         node 1 ended inconsistent 0 made 14 ran 13 got 14 14 demo 144 stopped\n");
}
