//! The version of the library.

ghost use Rattle.std.specs.Prelude.{◌≡◌};

/// The version: 65,536 times the first number, plus the second.
const LIBRARY_VERSION: u32 = 65_536;

/// The version of the library that is linked.
#[unsafe(no_mangle)]
pub extern "C" fn zmg_version() -> u32
    ensures { result ≡ 65536 }
{
    LIBRARY_VERSION
}
