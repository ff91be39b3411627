//! What is printed of a file: its lines on standard output, and on standard error why it was refused.

ghost use Rattle.std.specs.Prelude.{◌≤◌, length};

use dn_inspect::push_object;
use dn_netgame::RunFault;
use std::alloc::{AllocError, Global};
use std::io;
use std::io::{ErrorKind, Write};

/// How lines are printed.
#[derive(Clone, Copy)]
pub(crate) enum Form<'a, 'f> {
    /// As they are.
    Plain,
    /// Behind the name of their file.
    Named(&'a str),
    /// Each as a JSON object, behind what all objects of the file begin with.
    Objects(&'f [u8]),
}

/// The lines of a file. The last line is kept back: in a run that refuses its input it says why.
#[derive(Drop)]
pub(crate) struct Lines<'a, 'f, R> {
    rt: &'a R,
    form: Form<'a, 'f>,
    kept: Vec<u8>,
    is_closed: bool,
}

/// Where the last line begins.
fn last_line(text: &[u8]) -> usize
    ensures { result ≤ length text.now }
{
    let ended = text.strip_suffix(b"\n").unwrap_or(text);
    match ended.iter().rposition(|byte| *byte == b'\n') {
        Some(place) => place + 1,
        None => 0,
    }
}

/// The lines, each behind a label and what stands between them.
pub(crate) fn labelled(
    alloc: Global,
    label: &str,
    between: &str,
    lines: &[u8],
) -> Result<Vec<u8>, AllocError> {
    let mut text = Vec::new(alloc);
    for line in lines.split_inclusive(|byte| *byte == b'\n') {
        text.extend_from_slice(label.as_bytes())?;
        text.extend_from_slice(between.as_bytes())?;
        text.extend_from_slice(line)?;
    }
    Ok(text)
}

/// The objects of lines.
fn objects(alloc: Global, front: &[u8], lines: &[u8]) -> Result<Vec<u8>, AllocError> {
    let mut text = Vec::new(alloc);
    for line in lines.split_inclusive(|byte| *byte == b'\n') {
        push_object(&mut text, front, line.strip_suffix(b"\n").unwrap_or(line))?;
    }
    Ok(text)
}

impl<'a, 'f, R: Print + AllocGlobal> Lines<'a, 'f, R> {
    /// No lines yet.
    pub(crate) fn new(rt: &'a R, form: Form<'a, 'f>) -> Self {
        let kept = Vec::new(rt.alloc());
        Lines {
            rt,
            form,
            kept,
            is_closed: false,
        }
    }

    /// Prints lines on standard output.
    fn print(&mut self, lines: &[u8]) -> io::Result<()> {
        let alloc = self.rt.alloc();
        let printed = match self.form {
            Form::Plain => self.rt.write_all(lines),
            Form::Named(file) => self.rt.write_all(&labelled(alloc, file, ": ", lines)?),
            Form::Objects(front) => self.rt.write_all(&objects(alloc, front, lines)?),
        };
        if let Err(error) = &printed {
            self.is_closed = error.kind() == ErrorKind::BrokenPipe;
        }
        printed
    }

    /// Whether nobody reads standard output any more, as behind `head`.
    pub(crate) fn is_closed(&self) -> bool {
        self.is_closed
    }

    /// The line that was kept back.
    pub(crate) fn last(&self) -> &str {
        str::from_utf8(&self.kept).unwrap_or("").trim_end()
    }

    /// Prints the line that was kept back.
    pub(crate) fn finish(&mut self) -> Result<(), RunFault> {
        let kept = std::mem::replace(&mut self.kept, Vec::new(self.rt.alloc()));
        self.print(&kept).map_err(|_| RunFault::Write)
    }
}

impl<R: Print + AllocGlobal> Write for Lines<'_, '_, R> {
    fn write(&mut self, text: &[u8]) -> io::Result<usize> {
        self.kept.extend_from_slice(text)?;
        let last = last_line(&self.kept);
        let kept = Vec::from_slice(self.rt.alloc(), &self.kept[last..])?;
        let mut whole = std::mem::replace(&mut self.kept, kept);
        whole.truncate(last);
        self.print(&whole)?;
        Ok(text.len())
    }

    fn flush(&mut self) -> io::Result<()> {
        Ok(())
    }
}
