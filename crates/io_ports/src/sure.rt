// A source and a sink in memory that never fail.
ghost use Rattle.std.specs.Prelude.{◌≡◌, ◌≤◌, ◌<◌, List, ℕ, Option, Some, [], length, min, IfOk};
ghost use Rattle.std.specs.Option.{option_copied};
ghost use Rattle.std.specs.Io.{ReadsAtMost, WritesAtMost};
ghost use Rattle.std.specs.Io.KnownBytes.{ReadConsumes};
ghost use Rattle.io_ports.specs.Causes.{HasCause, WriteTakes};
ghost use Rattle.io_ports.specs.Devices.{SureSinkState, taken_within};

use crate::copying::copy_front;
use crate::{Failed, Sink, Source};
use std::alloc::{AllocError, Global};
use std::marker::Model;

/// Gives the bytes of a list, and never fails.
#[derive(Drop)]
pub struct SureSource {
    bytes: Vec<u8>,
    at: usize,
}

impl Model for SureSource {
    ghost use Rattle.std.specs.Prelude.{◌≤◌, List, ℕ, length, drop};

    ghost Value = { List ℕ };

    ghost view = { λ s. drop s.at s.bytes.items };

    ghost invariant = { λ s. s.at ≤ length s.bytes.items };
}

impl SureSource {
    /// A source that has these bytes left.
    pub fn new(bytes: Vec<u8>) -> Self
        ensures { result ≡ bytes.items }
    {
        SureSource { bytes, at: 0 }
    }

    /// The bytes that are left.
    pub fn left(&self) -> &[u8]
        ensures { result.now ≡ self.now }
    {
        &self.bytes[self.at..]
    }
}

impl Source for SureSource {
    ghost left = { λ s. Some s };

    ghost faults = { λ _. 0 };

    fn read(&mut self, into: &mut [u8]) -> Result<usize, Failed>
        ensures bound { ReadsAtMost result into.new }
        ensures bytes { ReadConsumes (Some self.old) (Some self.new) result into.new }

        // It gives all that fits.
        ensures whole { result ≡ Ok (min (length into.new) (length self.old)) }
    {
        let count = copy_front(&self.bytes[self.at..], into);
        self.at += count;
        Ok(count)
    }
}

/// Takes whole pieces, and never fails. From the first piece that is longer than the room left it keeps nothing and
/// tells nothing.
#[derive(Drop)]
pub struct SureSink {
    bytes: Vec<u8>,
    room: usize,
    is_past: bool,
}

impl Model for SureSink {
    ghost use Rattle.std.specs.Prelude.{◌≤◌, length, vec_capacity, Some, None, if◌then◌else◌};
    ghost use Rattle.io_ports.specs.Devices.{SureSinkState};

    ghost Value = { SureSinkState };

    ghost view = { λ s. record { taken = (if s.is_past then None else Some s.bytes.items); room = s.room } };

    ghost invariant = { λ s. (length s.bytes.items ≤ s.room) × (s.room ≤ vec_capacity s.bytes) };
}

impl SureSink {
    /// A sink with room for so many bytes in all.
    pub fn new(alloc: Global, room: usize) -> Result<Self, AllocError>
        ensures { IfOk result (λ s. s ≡ record { taken = Some []; room = room }) }
    {
        let bytes = Vec::with_capacity(alloc, room)?;
        Ok(SureSink {
            bytes,
            room,
            is_past: false,
        })
    }

    /// The bytes that it took, unless there were more than its room.
    pub fn bytes(&self) -> Option<&[u8]>
        ensures { option_copied result ≡ self.now.taken }
    {
        if self.is_past {
            return None;
        }
        Some(&self.bytes)
    }
}

impl Sink for SureSink {
    ghost taken = { λ s. s.taken };

    ghost faults = { λ _. 0 };

    fn write(&mut self, piece: &[u8]) -> Result<usize, Failed>
        ensures bound { WritesAtMost result piece.now }
        ensures some { IfOk result (λ n. 0 < length piece.now → 0 < n) }
        ensures bytes { WriteTakes self.old.taken self.new.taken result piece.now }

        // It answers the whole length, and tells as long as all pieces fitted.
        ensures whole { result ≡ Ok (length piece.now) }
        ensures taken { self.new.taken ≡ taken_within self.old.room self.old.taken piece.now }
        ensures room { self.new.room ≡ self.old.room }
    {
        if self.is_past {
            return Ok(piece.len());
        }
        if self.room - self.bytes.len() < piece.len() {
            self.is_past = true;
            return Ok(piece.len());
        }
        self.bytes.extend_from_slice(piece).unwrap();
        Ok(piece.len())
    }
}
