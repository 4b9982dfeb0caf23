// Reading a source or a file to its end, and writing all of some bytes.
ghost use Rattle.std.specs.Prelude.{◌≡◌, ◌≤◌, ◌<◌, ◌+◌, List, ℕ, [], length, drop, IfOk, OnOk, OnErr, Some, IsErrOf};
ghost use Rattle.io_ports.specs.Causes.{Rose, Takes, TakesFront, HasCause};
ghost use Rattle.io_ports.specs.declared.reading.ReadErr.TheVariants.{OutOfMemory, Fault};
ghost use Rattle.io_ports.specs.declared.ports.Failed.{Failed};

use crate::{Failed, Files, Sink, Source};
use std::alloc::{AllocError, Global};
use thiserror::Error;

/// Why a source or a file wasn't read to its end.
#[derive(Clone, Copy, Debug, PartialEq, Eq, Error)]
pub enum ReadErr {
    /// A call of the device failed.
    #[error("the device failed")]
    Fault,
    /// More bytes came than the limit allows.
    #[error("more bytes than allowed")]
    TooLong,
    /// There was no memory for the bytes.
    #[error("out of memory")]
    OutOfMemory,
}

impl From<AllocError> for ReadErr {
    ghost from_gives = { λ _ e. e ≡ OutOfMemory };

    fn from(_: AllocError) -> Self {
        ReadErr::OutOfMemory
    }
}

impl From<Failed> for ReadErr {
    ghost from_gives = { λ _ e. e ≡ Fault };

    fn from(_: Failed) -> Self {
        ReadErr::Fault
    }
}

// The most bytes that one call asks for or hands on.
const PIECE: usize = 4096;

/// Reads the source to its end, at most `limit` bytes. Where it gives more, it is left behind the first `limit + 1` of
/// them. After a failure or want of memory nothing is said of what is left.
pub fn read_all<S: Source>(alloc: Global, src: &mut S, limit: usize) -> Result<Vec<u8>, ReadErr>
    ensures all { IfOk result (λ v. (t : List ℕ) → S.left src.old ≡ Some t → v.items ≡ t) }
    ensures rest { OnOk result ((t : List ℕ) → S.left src.old ≡ Some t → S.left src.new ≡ Some []) }
    ensures short { IfOk result (λ v. length v.items ≤ limit) }

    ensures too_long { IsErrOf result ReadErr.TooLong → (t : List ℕ) → S.left src.old ≡ Some t → limit < length t }
    ensures behind { IsErrOf result ReadErr.TooLong → (t : List ℕ) → S.left src.old ≡ Some t → S.left src.new ≡ Some (drop (limit + 1) t) }
    ensures fault { IsErrOf result ReadErr.Fault → Rose (S.faults src.old) (S.faults src.new) }
    ensures later { S.faults src.old ≤ S.faults src.new }
{
    let mut bytes = Vec::new(alloc);
    let mut buffer = [0u8; PIECE];
    while bytes.len() <= limit {
        let ask = (limit - bytes.len()).min(PIECE - 1) + 1;
        let piece = &mut buffer[..ask];
        let n = src.read(piece)?;
        if n == 0 {
            return Ok(bytes);
        }
        bytes.extend_from_slice(&piece[..n])?;
    }
    Err(ReadErr::TooLong)
}

/// Reads the file of a name to its end, at most `limit` bytes.
pub fn read_file<F: Files>(
    alloc: Global,
    files: &mut F,
    name: &str,
    limit: usize,
) -> Result<Vec<u8>, ReadErr>
    requires { limit ≤ 1048576 }
    ensures all { IfOk result (λ v. (w : List ℕ) → F.bytes_of files.old name.now ≡ Some w → v.items ≡ w) }
    ensures short { IfOk result (λ v. length v.items ≤ limit) }

    ensures too_long { IsErrOf result ReadErr.TooLong → (w : List ℕ) → F.bytes_of files.old name.now ≡ Some w → limit < length w }
    ensures fault { IsErrOf result ReadErr.Fault → Rose (F.faults_of files.old name.now) (F.faults_of files.new name.now) }

    // Whatever the answer, the files tell what they told, and no count fell.
    ensures same { (n : List ℕ) → F.bytes_of files.new n ≡ F.bytes_of files.old n }
    ensures later { (n : List ℕ) → F.faults_of files.old n ≤ F.faults_of files.new n }
{
    let mut bytes = Vec::new(alloc);
    let mut buffer = [0u8; PIECE];
    while bytes.len() <= limit {
        let ask = (limit - bytes.len()).min(PIECE - 1) + 1;
        let piece = &mut buffer[..ask];
        let n = files.read_at(name, bytes.len() as u64, piece)?;
        if n == 0 {
            return Ok(bytes);
        }
        bytes.extend_from_slice(&piece[..n])?;
    }
    Err(ReadErr::TooLong)
}

/// Writes all of the bytes, in pieces of at most 4,096. After a failure a front of them went out. The count of the
/// sink's faults never falls, and rose where this answers `Failed`.
pub fn write_all<K: Sink>(out: &mut K, bytes: &[u8]) -> Result<(), Failed>
    ensures all { OnOk result (Takes (K.taken out.old) (K.taken out.new) bytes.now) }
    ensures front { OnErr result (TakesFront (K.taken out.old) (K.taken out.new) bytes.now) }
    ensures cause { HasCause (K.faults out.old) (K.faults out.new) result }
{
    let mut at = 0;
    while at < bytes.len() {
        let end = at + (bytes.len() - at).min(PIECE);
        at += out.write(&bytes[at..end])?;
    }
    Ok(())
}
