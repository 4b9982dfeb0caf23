// The commands of a script.
ghost use Rattle.std.specs.Prelude.{◌≡◌, ◌++◌, ◌∷◌, [], length, IfOk, OnOk};

use self_terms::{ByteList, OutOfMemory};
use std::alloc::Global;
use std::marker::Model;

/// The names of a path, from the lobby on.
#[derive(Drop)]
pub struct PathText {
    names: Vec<ByteList>,
}

impl Model for PathText {
    ghost use Rattle.std.specs.Prelude.{List, ℕ};

    ghost Value = { List (List ℕ) };

    ghost view = { λ p. p.names.items };
}

impl PathText {
    /// No names. Takes no memory.
    pub fn open(alloc: Global) -> PathText
        ensures { result ≡ [] }
    {
        PathText {
            names: Vec::new(alloc),
        }
    }

    /// One name more at the end.
    pub fn push(&mut self, name: ByteList) -> Result<(), OutOfMemory>
        ensures { OnOk result (self.new ≡ self.old ++ name ∷ []) }
    {
        self.names.push(name)?;
        Ok(())
    }

    /// The names in their order.
    pub fn as_slice(&self) -> &[ByteList]
        ensures { result.now ≡ self.now }
    {
        self.names.as_slice()
    }
}

/// One command of a script, with its words.
#[derive(Drop)]
pub enum Command {
    /// A new activity of the lobby's method of this name.
    Spawn(ByteList),
    /// Activity K becomes the current one; activities are numbered from 1.
    Switch(u32),
    /// So many steps on.
    Run(u32),
    /// On until the session has made so many steps.
    Continue(u32),
    /// One step on.
    Step,
    /// At least so many steps on.
    Interrupt(u32),
    /// On until the youngest activation is gone, at most so many steps.
    Finish(u32),
    /// Shows the activations.
    Stack,
    /// A new method for a slot of the object at a path from the lobby; the text is that between the command's line and the
    /// line `end`, as it stands.
    Edit { path: PathText, text: ByteList },
    /// Shows the code.
    Units,
    /// Shows the machine.
    Machine,
    /// 0 drops the present advisor; K from 1 drops it and takes the K-th that is left.
    Advisor(u32),
}

/// The commands of a script, in their order.
#[derive(Drop)]
pub struct Script {
    commands: Vec<Command>,
}

impl Model for Script {
    ghost use Rattle.std.specs.Prelude.{List};
    ghost use Rattle.session_text.specs.declared.commands.Command.{Command};

    ghost Value = { List Command };

    ghost view = { λ s. s.commands.items };
}

impl Script {
    /// No commands. Takes no memory.
    pub fn open(alloc: Global) -> Script
        ensures { result ≡ [] }
    {
        Script {
            commands: Vec::new(alloc),
        }
    }

    /// One command more at the end.
    pub fn push(&mut self, command: Command) -> Result<(), OutOfMemory>
        ensures { OnOk result (self.new ≡ self.old ++ command ∷ []) }
    {
        self.commands.push(command)?;
        Ok(())
    }

    /// The commands in their order.
    pub fn as_slice(&self) -> &[Command]
        ensures { result.now ≡ self.now }
    {
        self.commands.as_slice()
    }
}

/// A copy of these bytes.
pub fn bytes_of(alloc: Global, bytes: &[u8]) -> Result<ByteList, OutOfMemory>
    ensures { IfOk result (λ copy. copy ≡ bytes.now) }
{
    let mut copy = ByteList::open(alloc);
    for byte in bytes {
        copy.push(*byte)?;
    }
    Ok(copy)
}
