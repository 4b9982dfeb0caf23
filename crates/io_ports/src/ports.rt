// A source, a sink and files: what they have, where they tell it, and how often they failed.
ghost use Rattle.std.specs.Prelude.{◌≡◌, ◌≤◌, ◌<◌, List, ℕ, Option, length, IfOk};
ghost use Rattle.std.specs.Io.{ReadsAtMost, WritesAtMost};
ghost use Rattle.std.specs.Io.KnownBytes.{ReadConsumes};
ghost use Rattle.io_ports.specs.Causes.{HasCause, WriteTakes};
ghost use Rattle.io_ports.specs.Named.{ReadsAt};

use thiserror::Error;

/// The call failed: it gave and took nothing.
#[derive(Clone, Copy, Debug, PartialEq, Eq, Error)]
#[error("the device failed")]
pub struct Failed;

/// Gives bytes, each once and in order.
pub trait Source {
    /// The bytes that are left, where the source tells them.
    ghost left: { Self → Option (List ℕ) };

    /// How often it has failed.
    ghost faults: { Self → ℕ };

    /// Moves bytes from the front of what is left to the front of `into`, and answers how many: 0 for an `into` that
    /// isn't empty is the end. A source that tells goes on telling, also after a failure, which takes nothing from
    /// what is left.
    fn read(&mut self, into: &mut [u8]) -> Result<usize, Failed>
        ensures bound { ReadsAtMost result into.new }
        ensures bytes { ReadConsumes (left self.old) (left self.new) result into.new }
        ensures cause { HasCause (faults self.old) (faults self.new) result };
}

/// Takes bytes, and puts each piece behind what it took before.
pub trait Sink {
    /// The bytes that were taken, where the sink tells them.
    ghost taken: { Self → Option (List ℕ) };

    /// How often it has failed.
    ghost faults: { Self → ℕ };

    /// Takes bytes from the front of `piece`, at least one where there is one, and answers how many. A sink that tells
    /// after the call told before it; one that told may stop. A failed call takes nothing.
    fn write(&mut self, piece: &[u8]) -> Result<usize, Failed>
        ensures bound { WritesAtMost result piece.now }
        ensures some { IfOk result (λ n. 0 < length piece.now → 0 < n) }
        ensures bytes { WriteTakes (taken self.old) (taken self.new) result piece.now }
        ensures cause { HasCause (faults self.old) (faults self.new) result };
}

/// Gives the bytes of names. Reading changes none.
pub trait Files {
    /// The bytes of a name, where the files tell them.
    ghost bytes_of: { Self → List ℕ → Option (List ℕ) };

    /// How often reading from a name has failed. Names may share a count.
    ghost faults_of: { Self → List ℕ → ℕ };

    /// Copies bytes of the name from the place `at` on to the front of `into`, and answers how many: 0 for an `into`
    /// that isn't empty is the end.
    fn read_at(&mut self, name: &str, at: u64, into: &mut [u8]) -> Result<usize, Failed>
        requires { at ≤ 1048576 }
        ensures bound { ReadsAtMost result into.new }
        ensures bytes { ReadsAt (bytes_of self.old name.now) at result into.new }
        ensures same { (n : List ℕ) → bytes_of self.new n ≡ bytes_of self.old n }
        ensures cause { HasCause (faults_of self.old name.now) (faults_of self.new name.now) result }
        ensures later { (n : List ℕ) → faults_of self.old n ≤ faults_of self.new n };
}
