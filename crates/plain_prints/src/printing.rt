// What primitives print.
ghost use Rattle.std.specs.Prelude.{◌≡◌, ◌≤◌, [], List, ℕ, OnOk, OnErr, IsErrOf};
ghost use Rattle.io_ports.specs.Causes.{HasCause, Rose, Takes, TakesFront};
ghost use Rattle.object_maps.specs.Slots.{Slots};
ghost use Rattle.object_maps.specs.declared.layout.Heap.{Heap};
ghost use Rattle.plain_host.specs.Hosted.{host};
ghost use Rattle.plain_prims.specs.Services.{heap_of};
ghost use Rattle.plain_prints.specs.Lines.{IntSays, Line, Front, TextSays, text_in};
ghost use Rattle.plain_prints.specs.Printing.{printing_of};
ghost use Rattle.plain_prints.specs.declared.printing.PrintErr.TheVariants.{OutOfMemory, Write};
ghost use Rattle.plain_turns.specs.Primitives.{Says};
ghost use Rattle.prim_table.specs.Operands.{Operand, TextAt};
ghost use Rattle.source_model.specs.Texts.{out_line};

use crate::pieces::Piece;
use io_ports::{Failed, Sink, write_all};
use object_maps::Maps;
use plain_host::Hosting;
use self_terms::{Word, int_of_word, is_int};
use source_model::Primitive;
use sparc_store::Memory;
use std::alloc::{AllocError, Global};

/// Why a line wasn't written.
#[derive(Clone, Copy, Debug, PartialEq, Eq, Drop)]
pub enum PrintErr {
    /// There was no memory for a piece of it.
    OutOfMemory,
    /// The sink failed.
    Write,
}

impl From<AllocError> for PrintErr {
    ghost from_gives = { λ _ e. e ≡ OutOfMemory };

    fn from(_: AllocError) -> Self {
        PrintErr::OutOfMemory
    }
}

impl From<Failed> for PrintErr {
    ghost from_gives = { λ _ e. e ≡ Write };

    fn from(_: Failed) -> Self {
        PrintErr::Write
    }
}

/// What a primitive prints: nothing, a string, or an integer.
#[derive(Clone, Copy, PartialEq, Eq, Drop, Debug)]
pub enum Printing {
    Nothing,
    Text,
    Integer,
}

fn printing_of(prim: Primitive) -> Printing
    ensures { result ≡ printing_of prim }
{
    match prim {
        Primitive::StringPrint => Printing::Text,
        Primitive::IntPrint => Printing::Integer,
        _ => Printing::Nothing,
    }
}

// The line of a string.
fn print_text<K: Sink>(
    mem: &Memory,
    receiver: Word,
    piece: &mut Piece,
    out: &mut K,
) -> Result<(), Failed>
    requires empty { piece.old ≡ [] }
    requires text { (maps : List Slots) × (heap : Heap) × TextAt maps mem.now heap receiver }
    ensures all { OnOk result (Takes (K.taken out.old) (K.taken out.new) (out_line (text_in mem.now receiver))) }
    ensures front { OnErr result (TakesFront (K.taken out.old) (K.taken out.new) (out_line (text_in mem.now receiver))) }
    ensures cause { HasCause (K.faults out.old) (K.faults out.new) result }
{
    piece.put_bytes(b"out ");
    piece.put_text(mem, receiver + 11, mem.load(receiver + 7) / 4, out)?;
    piece.put_bytes(b"\n");
    write_all(out, piece.bytes())
}

// The line of a value where it is a string.
fn print_string<K: Sink>(
    maps: &Maps,
    mem: &Memory,
    alloc: Global,
    receiver: Word,
    out: &mut K,
) -> Result<(), PrintErr>
    requires { (heap : Heap) × Operand maps.now mem.now heap receiver }
    ensures said { OnOk result (Line (TextSays maps.now mem.now receiver) (K.taken out.old) (K.taken out.new)) }
    ensures front { OnErr result (Front (TextSays maps.now mem.now receiver) (K.taken out.old) (K.taken out.new)) }
    ensures cause { (K.faults out.old ≤ K.faults out.new) × (IsErrOf result PrintErr.Write → Rose (K.faults out.old) (K.faults out.new)) }
{
    let map = maps.map_of(mem, receiver);
    if map.0 != 1 {
        return Ok(());
    }
    let mut piece = Piece::open(alloc)?;
    print_text(mem, receiver, &mut piece, out)?;
    Ok(())
}

// The line of a value where it is an integer.
fn print_integer<K: Sink>(alloc: Global, receiver: Word, out: &mut K) -> Result<(), PrintErr>
    ensures said { OnOk result (Line (IntSays receiver) (K.taken out.old) (K.taken out.new)) }
    ensures front { OnErr result (Front (IntSays receiver) (K.taken out.old) (K.taken out.new)) }
    ensures cause { (K.faults out.old ≤ K.faults out.new) × (IsErrOf result PrintErr.Write → Rose (K.faults out.old) (K.faults out.new)) }
{
    if !is_int(receiver) {
        return Ok(());
    }
    let mut piece = Piece::open(alloc)?;
    piece.put_integer(int_of_word(receiver));
    write_all(out, piece.bytes())?;
    Ok(())
}

/// Writes the line that a primitive prints for the receiver in %o0, and nothing where it prints nothing or would fail.
pub fn print<K: Sink>(
    hosting: &Hosting,
    alloc: Global,
    prim: Primitive,
    out: &mut K,
) -> Result<(), PrintErr>
    requires { Operand (host hosting.now).maps (host hosting.now).machine.memory (heap_of (host hosting.now)) ((host hosting.now).machine.regs 8) }
    ensures said { OnOk result ((line : List ℕ) × Says (host hosting.now) prim line × Takes (K.taken out.old) (K.taken out.new) line) }
    ensures front { OnErr result ((line : List ℕ) × Says (host hosting.now) prim line × TakesFront (K.taken out.old) (K.taken out.new) line) }

    // The count of the sink's faults never falls.
    ensures cause { (K.faults out.old ≤ K.faults out.new) × (IsErrOf result PrintErr.Write → Rose (K.faults out.old) (K.faults out.new)) }
{
    let receiver = hosting.register(8);
    match printing_of(prim) {
        Printing::Nothing => return Ok(()),
        Printing::Text => {
            return print_string(hosting.maps(), hosting.memory(), alloc, receiver, out);
        }
        Printing::Integer => return print_integer(alloc, receiver, out),
    }
}
