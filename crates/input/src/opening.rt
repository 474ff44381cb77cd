// A file of a name that a caller gives in bytes is opened to be read.
ghost use Rattle.std.specs.Prelude.{◌≤◌, ◌<◌, length, IsErr};

use std::io::{Error, ErrorKind, Read};
use std::rt::Files;
use std::{fs, io};

// The system's numbers of two errors.
const NO_SUCH_FILE: i32 = 2;

const NAME_TOO_LONG: i32 = 36;

// The longest name that the system takes.
const LONGEST_NAME: usize = 4095;

// The place behind the last slash, which parts the directory from the name in it; 0 where there is none.
fn name_place(name: &[u8]) -> usize
    ensures { result ≤ length name.now }
{
    match name.iter().rposition(|b| *b == b'/') {
        Some(i) => i + 1,
        None => 0,
    }
}

// Is a name among those that stand one after the other, each ended by a NUL?
fn is_among(names: &[u8], name: &[u8]) -> bool {
    names.split(|b| *b == 0).any(|piece| piece == name)
}

// Does a directory hold a file of this name? No read of a directory ends inside a name.
fn holds<F: Files>(files: &F, directory: &str, name: &[u8]) -> io::Result<bool> {
    let mut names = files.open_dir(directory)?;
    let mut room = [0u8; 4096];
    for _ in 0..u64::MAX {
        let n = names.read(&mut room)?;
        if n == 0 {
            break;
        }
        if is_among(&room[..n], name) {
            return Ok(true);
        }
    }
    Ok(false)
}

// Why a file whose name is no UTF-8 cannot be opened.
fn no_text() -> Error {
    Error::new(
        ErrorKind::InvalidFilename,
        "its name is not UTF-8; hand it in as standard input",
    )
}

// The same where there may be no such file.
fn why_not<F: Files>(files: &F, name: &[u8]) -> Error {
    let at = name_place(name);
    let Ok(directory) = std::str::from_utf8(&name[..at]) else {
        return no_text();
    };
    let directory = if at == 0 { "./" } else { directory };
    match holds(files, directory, &name[at..]) {
        Ok(true) => no_text(),
        Ok(false) => Error::from_raw_os_error(NO_SUCH_FILE),
        Err(why) => why,
    }
}

// Opens a file. A name is text to the standard library, so that one that is no UTF-8 cannot be opened.
pub fn open<F: Files>(files: &F, name: &[u8]) -> io::Result<F::File>
    ensures { 4095 < length name.now → IsErr result }
{
    if name.len() > LONGEST_NAME {
        return Err(Error::from_raw_os_error(NAME_TOO_LONG));
    }
    match std::str::from_utf8(name) {
        Ok(path) => fs::open(files, path),
        Err(_) => Err(why_not(files, name)),
    }
}
