//! A reader and a writer that count which of their calls failed.
ghost use Rattle.std.specs.Prelude.{◌≡◌, IfErr, IfOk, OnOk, is_ok};
ghost use Rattle.std.specs.Io.{ReadsAtMost, WritesAtMost};
ghost use Rattle.std.specs.Io.KnownBytes.{Appends, Keeps, ReadConsumes, WriteAppends};
ghost use Rattle.bepd.specs.Counts.{WritesSome, failed_after, given_after};

use crate::ending::Failure;
use std::io::{self, ErrorKind, Read, Write};

/// A reader that counts the bytes that its reads gave, and its failed reads: each up to `u64::MAX`.
#[derive(Debug, Drop)]
pub(crate) struct CountedReader<R> {
    pub(crate) inner: R,
    given: u64,
    failed: u64,
}

impl<R> CountedReader<R> {
    /// One of which nothing was read.
    pub(crate) fn new(inner: R) -> CountedReader<R>
        ensures inner { result.inner ≡ inner }
        ensures given { result.given ≡ 0 }
        ensures failed { result.failed ≡ 0 }
    {
        CountedReader {
            inner,
            given: 0,
            failed: 0,
        }
    }
}

impl<R: Read> CountedReader<R> {
    /// Reads bytes into the front of the buffer. Returns how many: 0 only at the end, or for an empty buffer. A read that was
    /// interrupted is made again. Fails with `Read` if the read failed.
    pub(crate) fn read(&mut self, buffer: &mut [u8]) -> Result<usize, Failure>
        ensures bound { ReadsAtMost result buffer.new }
        ensures bytes { ReadConsumes (R.remaining self.old.inner) (R.remaining self.new.inner) result buffer.new }
        ensures given { self.new.given ≡ given_after result self.old.given }
        ensures failed { self.new.failed ≡ failed_after result self.old.failed }
        ensures failure { IfErr result (λ failure. failure ≡ Failure.Read) }
    {
        let answer = read_again(&mut self.inner, buffer);
        let count = settle(&mut self.failed, answer, Failure::Read)?;
        self.given = self.given.saturating_add(count as u64);
        Ok(count)
    }
}

/// A writer that counts its failed calls, up to `u64::MAX`.
#[derive(Debug, Drop)]
pub(crate) struct CountedWriter<W> {
    pub(crate) inner: W,
    failed: u64,
}

impl<W> CountedWriter<W> {
    /// One to which nothing was written.
    pub(crate) fn new(inner: W) -> CountedWriter<W>
        ensures inner { result.inner ≡ inner }
        ensures failed { result.failed ≡ 0 }
    {
        CountedWriter { inner, failed: 0 }
    }
}

impl<W: Write> CountedWriter<W> {
    /// Writes all of the bytes, or a front of them. Fails with `Write` if that failed.
    pub(crate) fn write_all(&mut self, bytes: &[u8]) -> Result<(), Failure>
        ensures written { OnOk result (Appends (W.contents self.old.inner) (W.contents self.new.inner) bytes.now) }
        ensures front { WritesSome bytes.now (W.contents self.old.inner) (W.contents self.new.inner) }
        ensures failed { self.new.failed ≡ failed_after result self.old.failed }
        ensures failure { IfErr result (λ failure. failure ≡ Failure.Write) }
    {
        let answer = write_whole(&mut self.inner, bytes);
        settle(&mut self.failed, answer, Failure::Write)
    }

    /// Sees to it that what was written gets where it is to go. Fails with `Write` if that failed.
    pub(crate) fn flush(&mut self) -> Result<(), Failure>
        ensures kept { Keeps (W.contents self.old.inner) (W.contents self.new.inner) }
        ensures failed { self.new.failed ≡ failed_after result self.old.failed }
        ensures failure { IfErr result (λ failure. failure ≡ Failure.Write) }
    {
        let answer = self.inner.flush();
        settle(&mut self.failed, answer, Failure::Write)
    }
}

/// Counts a call that failed.
fn settle<T>(failed: &mut u64, answer: io::Result<T>, failure: Failure) -> Result<T, Failure>
    ensures value { IfOk result (λ value. answer ≡ Ok value) }
    ensures failure { IfErr result (λ f. f ≡ failure) }
    ensures variant { is_ok result ≡ is_ok answer }
    ensures counted { failed.new ≡ failed_after answer failed.old }
{
    match answer {
        Ok(value) => Ok(value),
        Err(_) => {
            *failed = failed.saturating_add(1);
            Err(failure)
        }
    }
}

/// A read, made again for as long as it is interrupted.
fn read_again<R: Read>(reader: &mut R, buffer: &mut [u8]) -> io::Result<usize>
    ensures bound { ReadsAtMost result buffer.new }
    ensures bytes { ReadConsumes (R.remaining reader.old) (R.remaining reader.new) result buffer.new }
{
    for _ in 0..u64::MAX {
        match reader.read(buffer) {
            Err(error) if error.kind() == ErrorKind::Interrupted => {}
            answer => return answer,
        }
    }
    reader.read(buffer)
}

/// Writes all of the bytes, by as many writes as that takes; one that was interrupted is made again. After a failure a front of them
/// is written.
fn write_whole<W: Write>(writer: &mut W, bytes: &[u8]) -> io::Result<()>
    ensures written { OnOk result (Appends (W.contents writer.old) (W.contents writer.new) bytes.now) }
    ensures front { WritesSome bytes.now (W.contents writer.old) (W.contents writer.new) }
{
    let mut at = 0;
    while at < bytes.len() {
        match write_again(writer, &bytes[at..])? {
            0 => return Err(io::Error::from(ErrorKind::WriteZero)),
            count => at += count,
        }
    }
    Ok(())
}

/// A write, made again for as long as it is interrupted.
fn write_again<W: Write>(writer: &mut W, bytes: &[u8]) -> io::Result<usize>
    ensures bound { WritesAtMost result bytes.now }
    ensures bytes { WriteAppends (W.contents writer.old) (W.contents writer.new) result bytes.now }
{
    for _ in 0..u64::MAX {
        match writer.write(bytes) {
            Err(error) if error.kind() == ErrorKind::Interrupted => {}
            answer => return answer,
        }
    }
    writer.write(bytes)
}
