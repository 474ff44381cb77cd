// A reader or a writer that keeps why it failed.
ghost use Rattle.std.specs.Prelude.{◌≡◌, None, Some, IfErr, MatchOption, OnOk};
ghost use Rattle.std.specs.Io.{ReadsAtMost, WritesAtMost};
ghost use Rattle.std.specs.IoError.{error_kind};
ghost use Rattle.std.specs.Io.KnownBytes.{ReadConsumes, WriteAppends, Keeps, Appends};

use std::io;
use std::io::{Error, ErrorKind, Read, Write};

#[derive(Drop)]
pub struct Noting<S> {
    stream: S,
    // why the last call that failed did
    why: Option<Error>,
}

impl<S> Noting<S> {
    pub fn new(stream: S) -> Noting<S>
        ensures { result ≡ record { stream = stream; why = None } }
    {
        Noting { stream, why: None }
    }

    // Why the last call that failed did; where none has, another reason than the system's.
    pub fn why(&self) -> Error
        ensures { MatchOption self.now.why (error_kind result ≡ ErrorKind.Other) (λ e. result ≡ e) }
    {
        self.why.unwrap_or(Error::from(ErrorKind::Other))
    }
}

// An answer as it is; where it is an error, that is kept.
fn noted<T>(kept: &mut Option<Error>, answer: io::Result<T>) -> io::Result<T>
    ensures same { result ≡ answer }
    ensures kept { IfErr answer (λ e. kept.new ≡ Some e) }
{
    match answer {
        Ok(value) => Ok(value),
        Err(why) => {
            *kept = Some(why);
            Err(why)
        }
    }
}

impl<R: Read> Read for Noting<R> {
    ghost remaining = { λ s. R.remaining s.stream };

    fn read(&mut self, buf: &mut [u8]) -> io::Result<usize>
        ensures bound { ReadsAtMost result buf.new }
        ensures bytes { ReadConsumes (R.remaining self.old.stream) (R.remaining self.new.stream) result buf.new }
        ensures kept { IfErr result (λ e. self.new.why ≡ Some e) }
    {
        let answer = self.stream.read(buf);
        noted(&mut self.why, answer)
    }
}

impl<W: Write> Write for Noting<W> {
    ghost contents = { λ s. W.contents s.stream };

    fn write(&mut self, buf: &[u8]) -> io::Result<usize>
        ensures bound { WritesAtMost result buf.now }
        ensures bytes { WriteAppends (W.contents self.old.stream) (W.contents self.new.stream) result buf.now }
        ensures kept { IfErr result (λ e. self.new.why ≡ Some e) }
    {
        let answer = self.stream.write(buf);
        noted(&mut self.why, answer)
    }

    fn flush(&mut self) -> io::Result<()>
        ensures bytes { Keeps (W.contents self.old.stream) (W.contents self.new.stream) }
        ensures kept { IfErr result (λ e. self.new.why ≡ Some e) }
    {
        let answer = self.stream.flush();
        noted(&mut self.why, answer)
    }

    fn write_all(&mut self, buf: &[u8]) -> io::Result<()>
        ensures bytes { OnOk result (Appends (W.contents self.old.stream) (W.contents self.new.stream) buf.now) }
        ensures kept { IfErr result (λ e. self.new.why ≡ Some e) }
    {
        let answer = self.stream.write_all(buf);
        noted(&mut self.why, answer)
    }
}
