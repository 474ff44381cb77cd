// The reason that the system gives for a failure, as a message ends with it.
ghost use Rattle.std.specs.Prelude.{◌≤◌, length};

use std::io;
use std::io::{Cursor, Error, Write};

// Where the system's number of an error begins, which stands in brackets behind its text: ` (os error 2)`.
fn number_place(text: &[u8]) -> usize
    ensures { result ≤ length text.now }
{
    match text.iter().rposition(|b| *b == b'(') {
        Some(i) => i.saturating_sub(1),
        None => text.len(),
    }
}

// An error's text without its number.
fn text_of(text: &[u8], why: Error) -> &[u8] {
    match why.raw_os_error() {
        None => text,
        Some(_) => &text[..number_place(text)],
    }
}

// Writes what a failure is about, and its reason, of which there is room for so many bytes.
pub(crate) fn write<E: Write>(errors: &mut E, about: &[u8], why: Error) -> io::Result<()> {
    let mut text = Cursor::new([0u8; 256]);
    let _ = write!(text, "{why}");
    let end = text.position().min(256) as usize;
    let text = text.into_inner();
    errors.write_all(about)?;
    errors.write_all(b": ")?;
    errors.write_all(text_of(&text[..end], why))?;
    errors.write_all(b"\n")
}
