//! Where the texts of a session over a network go: to standard output, and with `--raw`, which leaves that to the
//! demo, to standard error.

ghost use Rattle.dn_program.specs.Printed.{Answers};

use dn_netgame::RunFault;
use std::fmt::Display;

/// Prints a text.
pub(crate) fn say(rt: &(impl Print + Eprint), raw: bool, text: &str) -> Result<(), RunFault>
    ensures { Answers raw tt result }
{
    if raw {
        let _ = rt.eprint(text);
        return Ok(());
    }
    rt.print(text).map_err(|_| RunFault::Write)
}

/// Prints a line.
pub(crate) fn say_line<D: Display + Drop>(
    rt: &(impl Print + Eprint),
    raw: bool,
    line: D,
) -> Result<(), RunFault>
    ensures { Answers raw tt result }
{
    if raw {
        let _ = rt.eprintln(line);
        return Ok(());
    }
    rt.println(line).map_err(|_| RunFault::Write)
}
