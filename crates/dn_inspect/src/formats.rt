//! What a file is, by the bytes that it begins with.

ghost use Rattle.std.specs.Prelude.{◌≡◌, map};
ghost use Rattle.std.specs.Option.{option_map};
ghost use Rattle.dn_inspect.specs.Formats as spec;

/// What a format's files begin with, and what they are.
type Row = (&'static [u8], &'static str);

/// The signatures of formats. In demos of Boom, and of the programs that came from it, they follow the version.
const SIGNATURES: [Row; 17] = [
    (b"IWAD", "a WAD: netgame lumps lists its demos"),
    (b"PWAD", "a WAD: netgame lumps lists its demos"),
    (b"\x1f\x8b", "compressed by gzip: gunzip it first"),
    (b"PK\x03\x04", "a ZIP archive: unzip it first"),
    (b"\x1dDSDA\xe6", "a demo in dsda-doom's own format"),
    (b"\xffPR+UM", "a demo of PrBoom+ with UMAPINFO"),
    (b"\xc8\x1dBoom\xe6", "a demo of Boom 2.00, version 200"),
    (b"\xc9\x1dBoom\xe6", "a demo of Boom 2.01, version 201"),
    (b"\xca\x1dBoom\xe6", "a demo of Boom 2.02, version 202"),
    (b"\xcb\x1dBoom\xe6", "a demo of LxDoom, version 203"),
    (b"\xcb\x1dMBF\xe6", "a demo of MBF, version 203"),
    (b"\xd2\x1dMBF\xe6", "a demo of PrBoom, version 210"),
    (b"\xd3\x1dMBF\xe6", "a demo of PrBoom, version 211"),
    (b"\xd4\x1dMBF\xe6", "a demo of PrBoom, version 212"),
    (b"\xd5\x1dMBF\xe6", "a demo of PrBoom, version 213"),
    (b"\xd6\x1dMBF\xe6", "a demo of PrBoom, version 214"),
    (b"\xdd\x1dMBF21", "a demo of MBF21, version 221"),
];

/// The versions of demos that have no signature (`g_game.c`, G_RecordDemo).
const VERSIONS: [Row; 9] = [
    (b"\x65", "a demo of Strife, version 101"),
    (b"\x68", "a demo of Doom 1.4, version 104"),
    (b"\x69", "a demo of Doom 1.5, version 105"),
    (b"\x6a", "a demo of Doom 1.6 or 1.666, version 106"),
    (b"\x6b", "a demo of Doom 1.7, version 107"),
    (b"\x6c", "a demo of Doom 1.8, version 108"),
    (b"\x6d", "a demo of Doom 1.9, version 109"),
    (b"\x6e", "a demo of Doom's released source, version 110"),
    (b"\x6f", "a demo of version 111"),
];

/// What a demo is that begins with the skill.
const UNVERSIONED: &str = "a demo without a version, of Heretic, Hexen or Doom before 1.4";

/// What a file is that begins with these bytes, by a table.
fn begun(mut table: &[Row], bytes: &[u8]) -> Option<&'static str>
    ensures { option_map (λ name. name.now) result ≡ spec.begun (map (λ row. (row.0.now, row.1.now)) table.entry.now) bytes.now }
{
    while let [row, rest @ ..] = table {
        if bytes.starts_with(row.0) {
            return Some(row.1);
        }
        table = rest;
    }
    None
}

/// Whether a skill follows the version.
fn has_skill(bytes: &[u8]) -> bool
    ensures { result ≡ spec.has_skill bytes.now }
{
    bytes.len() > 1 && bytes[1] <= 4
}

/// Whether the bytes begin with a skill, an episode and a map.
fn is_unversioned(bytes: &[u8]) -> bool
    ensures { result ≡ spec.is_unversioned bytes.now }
{
    bytes.len() > 2 && bytes[0] <= 4 && (1..=6).contains(&bytes[1]) && (1..=60).contains(&bytes[2])
}

/// What a file without a signature is, by its version.
fn unsigned(bytes: &[u8]) -> Option<&'static str>
    ensures { option_map (λ name. name.now) result ≡ spec.unsigned bytes.now }
{
    if has_skill(bytes) {
        begun(&VERSIONS, bytes)
    } else {
        None
    }
}

/// What a demo without a version is.
fn unversioned(bytes: &[u8]) -> Option<&'static str>
    ensures { option_map (λ name. name.now) result ≡ spec.unversioned bytes.now }
{
    if is_unversioned(bytes) {
        Some(UNVERSIONED)
    } else {
        None
    }
}

/// What a file is that begins with these bytes, as a phrase: `a demo of Boom 2.02, version 202`. None if that is not
/// known. A signature is sure; a version, or a skill at the front, is a guess.
pub fn format_of(bytes: &[u8]) -> Option<&'static str>
    ensures { option_map (λ name. name.now) result ≡ spec.format_of bytes.now }
{
    begun(&SIGNATURES, bytes)
        .or(unsigned(bytes))
        .or(unversioned(bytes))
}
