// The bytes of a line that wait to be written.
ghost use Rattle.std.specs.Prelude.{◌≡◌, ◌≤◌, ◌<◌, ◌+◌, ◌^◌, ◌++◌, [], List, ℕ, length, flat_map, IfOk, OnOk, OnErr};
ghost use Rattle.io_ports.specs.Causes.{HasCause, TakesFront};
ghost use Rattle.plain_prints.specs.Lines.{IsSent, bytes_from};
ghost use Rattle.source_model.specs.Texts.{hex, integer_text, out_line, shown_byte};
ghost use Rattle.sparc_store.specs.Words.{HasByte};

use io_ports::{Failed, Sink, write_all};
use itoa::Buffer;
use sparc_store::Memory;
use std::alloc::{AllocError, Global};
use std::marker::Model;

/// A piece of a line, with room for 4,096 bytes, which is taken when it is made. Contracts see its bytes.
#[derive(Drop)]
pub struct Piece {
    bytes: Vec<u8>,
}

impl Model for Piece {
    ghost use Rattle.std.specs.Prelude.{List, ℕ, ◌≤◌};
    ghost use Rattle.std.specs.Vec.{vec_capacity};

    ghost Value = { List ℕ };

    ghost view = { λ p. p.bytes.items };

    ghost invariant = { λ p. 4096 ≤ vec_capacity p.bytes };
}

impl Piece {
    /// No bytes.
    pub fn open(alloc: Global) -> Result<Piece, AllocError>
        ensures { IfOk result (λ piece. piece ≡ []) }
    {
        Ok(Piece {
            bytes: Vec::with_capacity(alloc, 4096)?,
        })
    }

    /// The bytes.
    pub fn bytes(&self) -> &[u8]
        ensures { result.now ≡ self.now }
    {
        self.bytes.as_slice()
    }

    /// More bytes.
    pub fn put_bytes(&mut self, bytes: &[u8])
        requires { length self.old + length bytes.now ≤ 4096 }
        ensures text { self.new ≡ self.old ++ bytes.now }
        ensures len { length self.new ≡ length self.old + length bytes.now }
    {
        if self.bytes.extend_from_slice(bytes).is_err() {
            unreachable!();
        }
    }

    // A printed byte, as it is shown.
    fn put_shown(&mut self, byte: u8)
        requires { length self.old + 4 ≤ 4096 }
        ensures text { self.new ≡ self.old ++ shown_byte byte }
        ensures len { length self.new ≤ length self.old + 4 }
    {
        if byte == b'\\' {
            self.put_bytes(b"\\\\");
            return;
        }
        if byte == b'\n' {
            self.put_bytes(b"\\n");
            return;
        }
        if byte == b'\t' {
            self.put_bytes(b"\\t");
            return;
        }
        if byte == b'\r' {
            self.put_bytes(b"\\r");
            return;
        }
        if (32..=126).contains(&byte) {
            self.put_bytes(&[byte]);
            return;
        }
        self.put_bytes(b"\\x");
        self.put_bytes(&[hex(byte / 16), hex(byte % 16)]);
    }

    // The line of a few bytes.
    fn put_line(&mut self, bytes: &[u8])
        requires empty { self.old ≡ [] }
        requires few { length bytes.now ≤ 1000 }
        ensures { self.new ≡ out_line bytes.now }
    {
        self.put_bytes(b"out ");
        for byte in bytes {
            self.put_shown(*byte);
        }
        self.put_bytes(b"\n");
    }

    /// The line of an integer.
    pub fn put_integer(&mut self, integer: i32)
        requires { self.old ≡ [] }
        ensures { self.new ≡ out_line (integer_text integer) }
    {
        let mut digits = Buffer::new();
        self.put_line(digits.format(integer).as_bytes());
    }

    // Writes the bytes where another byte might not find room.
    fn make_room<K: Sink>(&mut self, out: &mut K) -> Result<(), Failed>
        ensures sent { OnOk result (IsSent (K.taken out.old) (K.taken out.new) self.new self.old) }
        ensures room { OnOk result (length self.new ≤ 4091) }
        ensures front { OnErr result (TakesFront (K.taken out.old) (K.taken out.new) self.old) }
        ensures cause { HasCause (K.faults out.old) (K.faults out.new) result }
    {
        if self.bytes.len() <= 4091 {
            return Ok(());
        }
        write_all(out, self.bytes.as_slice())?;
        self.bytes.clear();
        Ok(())
    }

    /// Puts the bytes of memory from an address on, so many, as they are shown, and writes what finds no room.
    pub fn put_text<K: Sink>(
        &mut self,
        mem: &Memory,
        at: u32,
        count: u32,
        out: &mut K,
    ) -> Result<(), Failed>
        requires room { length self.old ≤ 4095 }
        requires bytes { (k : ℕ) → k < count → HasByte (at + k) }
        requires end { at + count < 2 ^ 32 }
        ensures sent { OnOk result (IsSent (K.taken out.old) (K.taken out.new) self.new (self.old ++ flat_map shown_byte (bytes_from mem.now at count))) }
        ensures room { OnOk result (length self.new ≤ 4095) }
        ensures front { OnErr result (TakesFront (K.taken out.old) (K.taken out.new) (self.old ++ flat_map shown_byte (bytes_from mem.now at count))) }
        ensures cause { HasCause (K.faults out.old) (K.faults out.new) result }
    {
        for k in 0..count {
            self.make_room(out)?;
            self.put_shown(mem.load_byte(at + k));
        }
        Ok(())
    }
}

// A hexadecimal digit.
fn hex(digit: u8) -> u8
    requires { digit < 16 }
    ensures { result ≡ hex digit }
{
    if digit < 10 {
        b'0' + digit
    } else {
        b'a' + (digit - 10)
    }
}
