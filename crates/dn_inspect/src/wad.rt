//! WADs: where the lumps of one stand.

ghost use Rattle.std.specs.Prelude.{◌≡◌, ◌≤◌, ◌<◌, ◌+◌, ◌==◌, length, position, IfSome};
ghost use Rattle.dn_inspect.specs.Wads as spec;

/// How many bytes a header has.
pub const HEADER: usize = 12;

/// How many bytes an entry of a directory has.
pub const ENTRY: usize = 16;

/// Where the directory of a WAD stands.
#[derive(Clone, Copy, Debug, PartialEq, Eq)]
pub struct Directory {
    /// How many entries it has.
    pub count: u32,
    /// The byte at which it begins.
    pub place: u32,
}

/// A lump, by its entry in a directory.
#[derive(Clone, Copy, Debug, PartialEq, Eq)]
pub struct Lump {
    /// The byte at which it begins.
    pub place: u32,
    /// How many bytes it has.
    pub size: u32,
    /// Its name, padded with zeros.
    pub name: [u8; 8],
}

/// The number of four bytes at a place, the low byte first.
fn number_at(place: usize, bytes: &[u8]) -> u32
    requires { place + 4 ≤ length bytes.now }
    ensures { result ≡ spec.number_at place bytes.now }
{
    u32::from_le_bytes([
        bytes[place],
        bytes[place + 1],
        bytes[place + 2],
        bytes[place + 3],
    ])
}

/// Where the first zero stands.
fn first_zero(name: &[u8]) -> Option<usize>
    ensures value { result ≡ position (λ byte. byte == 0) name.now }
    ensures within { IfSome result (λ place. place < length name.now) }
{
    name.iter().position(|byte| *byte == 0)
}

impl Directory {
    /// The directory of a WAD with this header; None if it is that of no WAD.
    pub fn of(header: &[u8; HEADER]) -> Option<Directory>
        ensures { result ≡ spec.directory_of header.now }
    {
        if !header.starts_with(b"IWAD") && !header.starts_with(b"PWAD") {
            return None;
        }
        Some(Directory {
            count: number_at(4, header),
            place: number_at(8, header),
        })
    }
}

impl Lump {
    /// The lump of an entry.
    pub fn of(entry: &[u8; ENTRY]) -> Lump
        ensures { result ≡ spec.lump_of entry.now }
    {
        Lump {
            place: number_at(0, entry),
            size: number_at(4, entry),
            name: [
                entry[8], entry[9], entry[10], entry[11], entry[12], entry[13], entry[14],
                entry[15],
            ],
        }
    }

    /// Its name, up to the zeros.
    pub fn name(&self) -> &[u8]
        ensures { result.now ≡ spec.trimmed self.now.name }
    {
        let end = first_zero(&self.name).unwrap_or(8);
        &self.name[..end]
    }

    /// Whether its name begins with these bytes, in letters of either case.
    pub fn begins(&self, front: &[u8]) -> bool
        ensures { result ≡ spec.begins front.now (spec.trimmed self.now.name) }
    {
        let name = self.name();
        name.len() >= front.len() && name[..front.len()].eq_ignore_ascii_case(front)
    }
}
