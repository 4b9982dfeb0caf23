// The devices of the system, which count their faults. A source tells what the reader under it tells; the system's own
// readers, writers and files tell nothing of their content: the trusted edge.
ghost use Rattle.std.specs.Prelude.{◌≡◌, ◌<◌, ◌≤◌, List, ℕ, None, length, IfOk, MatchResult};
ghost use Rattle.std.specs.Io.{ReadsAtMost, WritesAtMost};
ghost use Rattle.std.specs.Io.KnownBytes.{ReadConsumes, WriteAppends};
ghost use Rattle.io_ports.specs.Causes.{HasCause, WriteTakes, CountsFault};
ghost use Rattle.io_ports.specs.Devices.{NameCounts, count_for, raised_for};

use crate::{Failed, Files, Sink, Source};
use std::io::{Read, Seek, SeekFrom, Write};
use std::marker::Model;
use std::{fs, io, rt};

/// A reader of std. Each of its errors is a fault, also an interrupted call. It tells the bytes that the reader tells.
#[derive(Drop)]
pub struct StdSource<R> {
    inner: R,
    faults: u64,
}

impl<R> Model for StdSource<R> {
    ghost use Rattle.std.specs.Prelude.{ℕ};

    ghost Value = { R × ℕ };

    ghost view = { λ s. (s.inner, s.faults) };
}

impl<R> StdSource<R> {
    /// A source over this reader, which hasn't failed yet.
    pub fn new(inner: R) -> Self
        ensures { result ≡ (inner, 0) }
    {
        StdSource { inner, faults: 0 }
    }

    /// How many calls failed.
    pub fn faults(&self) -> u64
        ensures { result ≡ self.now.1 }
    {
        self.faults
    }
}

impl<R: Read> Source for StdSource<R> {
    ghost left = { λ s. R.remaining s.0 };

    ghost faults = { λ s. s.1 };

    fn read(&mut self, into: &mut [u8]) -> Result<usize, Failed>
        ensures bound { ReadsAtMost result into.new }
        ensures bytes { ReadConsumes (R.remaining self.old.0) (R.remaining self.new.0) result into.new }
        ensures cause { HasCause self.old.1 self.new.1 result }
        ensures counts { CountsFault self.old.1 self.new.1 result }
    {
        match self.inner.read(into) {
            Ok(count) => Ok(count),
            Err(_) => {
                self.faults = self.faults.saturating_add(1);
                Err(Failed)
            }
        }
    }
}

/// A writer of std. Each of its errors is a fault, also where it takes nothing of a piece that isn't empty. It tells nothing
/// of what it took, since a writer may begin to tell late; but a writer that tells took just what this sink says.
#[derive(Drop)]
pub struct StdSink<W> {
    inner: W,
    faults: u64,
}

impl<W> Model for StdSink<W> {
    ghost use Rattle.std.specs.Prelude.{ℕ};

    ghost Value = { W × ℕ };

    ghost view = { λ s. (s.inner, s.faults) };
}

impl<W> StdSink<W> {
    /// A sink over this writer, which hasn't failed yet.
    pub fn new(inner: W) -> Self
        ensures { result ≡ (inner, 0) }
    {
        StdSink { inner, faults: 0 }
    }

    /// How many calls failed.
    pub fn faults(&self) -> u64
        ensures { result ≡ self.now.1 }
    {
        self.faults
    }
}

impl<W: Write> Sink for StdSink<W> {
    ghost taken = { λ _. None };

    ghost faults = { λ s. s.1 };

    fn write(&mut self, piece: &[u8]) -> Result<usize, Failed>
        ensures bound { WritesAtMost result piece.now }
        ensures some { IfOk result (λ n. 0 < length piece.now → 0 < n) }
        ensures cause { HasCause self.old.1 self.new.1 result }
        ensures counts { CountsFault self.old.1 self.new.1 result }
        // What the writer tells grew by what was taken, and at a failure by nothing.
        ensures written { WriteAppends (W.contents self.old.0) (W.contents self.new.0) result piece.now }
    {
        match self.inner.write(piece) {
            Ok(count) if count > 0 || piece.is_empty() => Ok(count),
            _ => {
                self.faults = self.faults.saturating_add(1);
                Err(Failed)
            }
        }
    }
}

/// The files of the system, opened anew for each piece. It counts the faults of one name, and those of all others
/// together.
#[derive(Drop)]
pub struct StdFiles<'a, R> {
    rt: &'a R,
    name: &'a str,
    faults: u64,
    other_faults: u64,
}

impl<'a, R> Model for StdFiles<'a, R> {
    ghost use Rattle.io_ports.specs.Devices.{NameCounts};

    ghost Value = { NameCounts };

    ghost view = { λ s. record { name = s.name.now; faults = s.faults; other_faults = s.other_faults } };
}

impl<'a, R> StdFiles<'a, R> {
    /// The system's files, of which none has failed yet; this name has a count of its own.
    pub fn new(rt: &'a R, name: &'a str) -> Self
        ensures { result ≡ record { name = name.now; faults = 0; other_faults = 0 } }
    {
        StdFiles {
            rt,
            name,
            faults: 0,
            other_faults: 0,
        }
    }

    /// How many calls for this name failed; all names but the one that it was made for share a count.
    pub fn faults_of(&self, name: &str) -> u64
        ensures { result ≡ count_for self.now name.now }
    {
        if name == self.name {
            self.faults
        } else {
            self.other_faults
        }
    }
}

// Opens the file anew, and reads from a place of it.
fn read_piece<R: rt::Files>(rt: &R, name: &str, at: u64, into: &mut [u8]) -> io::Result<usize>
    ensures { ReadsAtMost result into.new }
{
    let mut file = fs::open(rt, name)?;
    file.seek(SeekFrom::Start(at))?;
    file.read(into)
}

impl<'a, R: rt::Files> Files for StdFiles<'a, R> {
    ghost bytes_of = { λ _ _. None };

    ghost faults_of = { count_for };

    fn read_at(&mut self, name: &str, at: u64, into: &mut [u8]) -> Result<usize, Failed>
        requires { at ≤ 1048576 }
        ensures bound { ReadsAtMost result into.new }
        ensures cause { HasCause (count_for self.old name.now) (count_for self.new name.now) result }
        ensures later { (n : List ℕ) → count_for self.old n ≤ count_for self.new n }
        ensures counts { MatchResult result (λ _. self.new ≡ self.old) (λ _. self.new ≡ raised_for self.old name.now) }
    {
        if let Ok(count) = read_piece(self.rt, name, at, into) {
            return Ok(count);
        }
        if name == self.name {
            self.faults = self.faults.saturating_add(1);
            return Err(Failed);
        }
        self.other_faults = self.other_faults.saturating_add(1);
        Err(Failed)
    }
}
