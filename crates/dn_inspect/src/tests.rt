//! Heads of files by hand, and what they are.

use crate::{
    Directory, Lump, RowsFault, demo_of_rows, format_of, front_of_objects, push_object,
    text_of_bad_event,
};
use std::alloc::Global;

#[test]
fn files_are_known_by_their_heads(rt: HostRuntime) {
    let rows: [(&[u8], Option<&str>); 14] = [
        (
            b"IWAD\x05\0\0\0",
            Some("a WAD: netgame lumps lists its demos"),
        ),
        (b"PWAD", Some("a WAD: netgame lumps lists its demos")),
        (b"PWA", None),
        (b"\x1f\x8b\x08", Some("compressed by gzip: gunzip it first")),
        (
            b"\xca\x1dBoom\xe6\0\x03\x01\x01",
            Some("a demo of Boom 2.02, version 202"),
        ),
        (b"\xcb\x1dMBF\xe6\0", Some("a demo of MBF, version 203")),
        (b"\xcb\x1dBoom\xe6\0", Some("a demo of LxDoom, version 203")),
        (b"\xdd\x1dMBF21\0", Some("a demo of MBF21, version 221")),
        (b"\x6d\x04\x01\x01", Some("a demo of Doom 1.9, version 109")),
        (b"\x6d\x05\x01\x01", None),
        (b"\x65\x02\x01\0", Some("a demo of Strife, version 101")),
        (
            b"\x02\x01\x01\x01\0\0\0",
            Some("a demo without a version, of Heretic, Hexen or Doom before 1.4"),
        ),
        (b"build 0 -\n", None),
        (b"", None),
    ];
    for (bytes, name) in rows {
        assert_eq!(rt; format_of(bytes), name, "{bytes:?}");
    }
}

#[test]
fn a_directory_is_found_by_its_header(rt: HostRuntime) {
    let directory = Directory {
        count: 2,
        place: 0x0102_0304,
    };
    assert_eq!(rt;
        Directory::of(b"PWAD\x02\0\0\0\x04\x03\x02\x01"),
        Some(directory)
    );
    assert_eq!(rt; Directory::of(b"WAD2\x02\0\0\0\x04\x03\x02\x01"), None);
}

#[test]
fn a_lump_is_found_by_its_entry(rt: HostRuntime) {
    let lump = Lump::of(b"\x0c\0\0\0\x07\x01\0\0DEMO1\0\0\0");
    assert_eq!(rt; (lump.place, lump.size), (12, 263));
    assert_eq!(rt; lump.name(), b"DEMO1".as_slice());
    let full = Lump::of(b"\0\0\0\0\0\0\0\0ABCDEFGH");
    assert_eq!(rt; full.name(), b"ABCDEFGH".as_slice());
}

/// The header of the rows below.
const HEAD: &str =
    "version 109 skill 3 episode 1 map 7 deathmatch 1 respawn 0 fast 0 nomonsters 1 view 1 players 0 1\n";

/// Two tics of two players, written by hand.
const STEPS: [&str; 4] = [
    "tic 0 player 0 forward 50 side 0 turn 0 buttons 0\n",
    "tic 0 player 1 forward 0 side 0 turn 256 buttons 0\n",
    "tic 1 player 0 forward -50 side 0 turn 0 buttons 1\n",
    "tic 1 player 1 forward 25 side 24 turn 16384 buttons 0\n",
];

/// The demo of five lines.
fn demo_of(alloc: Global, lines: [&str; 5]) -> Result<Vec<u8>, RowsFault> {
    let mut text = String::new(alloc);
    for line in lines {
        text.push_str(line)?;
    }
    demo_of_rows(alloc, text.as_bytes())
}

#[test]
fn rows_are_written_as_a_demo(rt: HostRuntime) {
    let [a, b, c, d] = STEPS;
    let rows: [([&str; 5], &[u8]); 4] = [
        (
            [a, b, c, d, HEAD],
            b"\x6d\x03\x01\x07\x01\0\0\x01\x01\x01\x01\0\0\x32\0\0\0\0\0\x01\0\xce\0\0\x01\x19\x18\x40\0\x80",
        ),
        (
            [HEAD, a, b, c, d],
            b"\x6d\x03\x01\x07\x01\0\0\x01\x01\x01\x01\0\0\x32\0\0\0\0\0\x01\0\xce\0\0\x01\x19\x18\x40\0\x80",
        ),
        (
            [HEAD, a, b, a, b],
            b"\x6d\x03\x01\x07\x01\0\0\x01\x01\x01\x01\0\0\x32\0\0\0\0\0\x01\0\x32\0\0\0\0\0\x01\0\x80",
        ),
        (
            [c, d, a, b, HEAD],
            b"\x6d\x03\x01\x07\x01\0\0\x01\x01\x01\x01\0\0\xce\0\0\x01\x19\x18\x40\0\x32\0\0\0\0\0\x01\0\x80",
        ),
    ];
    for (lines, wanted) in rows {
        match demo_of(rt.alloc(), lines) {
            Ok(demo) => assert_eq!(rt; demo.as_slice(), wanted),
            Err(fault) => panic!(rt; "{fault}"),
        }
    }
}

#[test]
fn lines_that_make_no_demo_are_refused(rt: HostRuntime) {
    let [a, b, c, d] = STEPS;
    let odd_turn = "tic 0 player 1 forward 0 side 0 turn 257 buttons 0\n";
    let rows: [([&str; 5], RowsFault); 4] = [
        (
            [a, b, c, HEAD, "tics 2 cut 0 after 0\n"],
            RowsFault::Seats(1),
        ),
        ([a, b, c, d, "\n"], RowsFault::Head),
        ([a, b, "tic 1 forward 3\n", d, HEAD], RowsFault::Line(3)),
        ([HEAD, a, odd_turn, c, d], RowsFault::Turn(0)),
    ];
    for (lines, wanted) in rows {
        match demo_of(rt.alloc(), lines) {
            Err(fault) => assert_eq!(rt; fault, wanted),
            Ok(_) => panic!(rt; "{wanted}"),
        }
    }
}

#[test]
fn bad_events_are_told(rt: HostRuntime) {
    let rows = [
        ("buld", "'buld': no such event; did you mean build"),
        ("snd", "'snd': no such event; did you mean send"),
        ("stopp", "'stopp': no such event; did you mean stop"),
        ("delivre", "'delivre': no such event; did you mean deliver"),
        ("Quit", "'Quit': no such event; did you mean quit"),
        ("walk", "'walk': no such event"),
        ("run", "run has a node, as `run 0`"),
        (
            "build",
            "build has a node and its keys, as `build 0 fs` or `build 0 -`",
        ),
    ];
    for (word, wanted) in rows {
        match text_of_bad_event(rt.alloc(), word) {
            Ok(text) => assert_eq!(rt; text.as_str(), wanted),
            Err(fault) => panic!(rt; "{fault}"),
        }
    }
}

/// The object of a line of a file.
fn object_of(alloc: Global, file: &str, line: &str) -> Result<Vec<u8>, RowsFault> {
    let mut text = Vec::new(alloc);
    push_object(&mut text, &front_of_objects(alloc, file)?, line.as_bytes())?;
    Ok(text)
}

#[test]
fn lines_are_objects(rt: HostRuntime) {
    let rows: [(&str, &str, &[u8]); 4] = [
        (
            "a.lmp",
            "tic 0 player 1 forward -50 side 0 turn 256 buttons 1",
            b"{\"file\":\"a.lmp\",\"tic\":0,\"player\":1,\"forward\":-50,\"side\":0,\"turn\":256,\"buttons\":1}\n",
        ),
        (
            "a\"b\\c",
            "tics 2 cut 0 after 0",
            b"{\"file\":\"a\\\"b\\\\c\",\"tics\":2,\"cut\":0,\"after\":0}\n",
        ),
        (
            "a",
            "version 109 view 1 players 0 1",
            b"{\"file\":\"a\",\"version\":109,\"view\":1,\"players\":[0,1]}\n",
        ),
        ("a", "players 3", b"{\"file\":\"a\",\"players\":[3]}\n"),
    ];
    for (file, line, wanted) in rows {
        match object_of(rt.alloc(), file, line) {
            Ok(text) => assert_eq!(rt; text.as_slice(), wanted),
            Err(fault) => panic!(rt; "{fault}"),
        }
    }
}
