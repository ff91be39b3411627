//! Labelled numbers, as the printed lines have them, here and in the crates above.

ghost use Rattle.std.specs.{Prelude.◌≡◌, Prelude.◌++◌, Prelude.codes, Prelude.pos, Prelude.OnOk, String.string_bytes};
ghost use Rattle.dn_measure.specs.Fields.{labelled, fields_of, with_tenth};

use std::alloc::AllocError;

/// Appends each label and, behind it, its number in decimal. Err where memory is refused: what the text then
/// holds is not said, and the caller is to throw it away.
pub fn push_fields(text: &mut String, fields: &[(&str, i128)]) -> Result<(), AllocError>
    ensures { OnOk result (string_bytes text.new
        ≡ string_bytes text.old ++ labelled (fields_of fields.now)) }
{
    for (label, number) in fields {
        text.push_str(label)?;
        write!(text, "{number}")?;
    }
    Ok(())
}

/// Appends a line of such fields. Err as [`push_fields`].
pub fn push_line(text: &mut String, fields: &[(&str, i128)]) -> Result<(), AllocError>
    ensures { OnOk result (string_bytes text.new
        ≡ string_bytes text.old ++ (labelled (fields_of fields.now) ++ codes "\n")) }
{
    push_fields(text, fields)?;
    text.push_str("\n")
}

/// Appends a label and, behind it, a number of tenths as a decimal fraction.
#[tactic(auto, unfolding(crate::specs::Fields::with_tenth))]
pub(crate) fn push_tenths(text: &mut String, label: &str, tenths: u128) -> Result<(), AllocError>
    ensures { OnOk result (string_bytes text.new ≡ string_bytes text.old ++ with_tenth label.now tenths) }
{
    text.push_str(label)?;
    let whole = tenths / 10;
    let tenth = tenths % 10;
    write!(text, "{whole}")?;
    text.push_str(".")?;
    write!(text, "{tenth}")
}

/// Appends what is said of each of four players, by their numbers.
macro_rules! push_each {
    ($text:ident, $peers:ident, $push:ident) => {{
        let [a, b, c, d] = $peers;
        $push($text, 0, a)?;
        $push($text, 1, b)?;
        $push($text, 2, c)?;
        $push($text, 3, d)
    }};
}

pub(crate) use push_each;
