// What locals hold at first, as a text says it.
ghost use Rattle.std.specs.Prelude.{◌≡◌, OnOk};
ghost use Rattle.world_build.specs.SlotTexts.{longer};
ghost use Rattle.slot_text.specs.Contents.{initial};

use self_terms::Row;
use std::alloc::AllocError;

/// What a local holds at first: an integer, a string of the text by its number from 0, what a path of names leads to, or nil.
#[derive(Drop)]
pub enum InitialTold {
    Number(i32),
    String(u32),
    Path(Row<u32>),
    Nothing,
}

/// What a local of a body holds at first.
#[derive(Drop)]
pub(crate) struct Kept {
    pub body: u32,
    pub initial: InitialTold,
}

impl InitialTold {
    // A further name of a path.
    pub(crate) fn add_name(&mut self, name: u32) -> Result<(), AllocError>
        ensures { OnOk result (initial self.new ≡ longer (initial self.old) name) }
    {
        match self {
            InitialTold::Path(names) => {
                names.push(name)?;
                return Ok(());
            }
            _ => return Ok(()),
        }
    }
}
