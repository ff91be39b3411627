//! The files that a command line names.

ghost use Rattle.std.specs.Prelude.{codes, ◌≡◌, map};
ghost use Rattle.std.specs.Option.{option_map};
ghost use Rattle.clap.specs.Matches.{found_of, first_value, matched_of, raw_values};

use clap::ArgMatches;

/// The files that a command reads, where some are given.
pub fn files<'m, 'a>(matches: &'m ArgMatches<'a>) -> Option<&'m [&'a str]>
    ensures { option_map (λ files. map (λ file. file.now) files.now) result
        ≡ option_map raw_values (matched_of (found_of matches.now) (codes "files")) }
{
    matches.get_strs("files")
}

/// The demo that is upgraded.
pub fn from<'a>(matches: &ArgMatches<'a>) -> Option<&'a str>
    ensures { option_map (λ file. file.now) result ≡ first_value (found_of matches.now) (codes "in") }
{
    matches.get_str("in")
}

/// The file that is made for an upgraded demo.
pub fn to<'a>(matches: &ArgMatches<'a>) -> Option<&'a str>
    ensures { option_map (λ file. file.now) result ≡ first_value (found_of matches.now) (codes "out") }
{
    matches.get_str("out")
}

/// The first of two demos.
pub fn one<'a>(matches: &ArgMatches<'a>) -> Option<&'a str>
    ensures { option_map (λ file. file.now) result ≡ first_value (found_of matches.now) (codes "one") }
{
    matches.get_str("one")
}

/// The second of two demos.
pub fn other<'a>(matches: &ArgMatches<'a>) -> Option<&'a str>
    ensures { option_map (λ file. file.now) result ≡ first_value (found_of matches.now) (codes "other") }
{
    matches.get_str("other")
}
