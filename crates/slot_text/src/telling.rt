// The items of an edit's text, one after the other.
ghost use Rattle.std.specs.Prelude.{◌≡◌, ◌∷◌, [], ◌-◌, ◌<◌, ◌≤◌, length, IfOk, OnOk};
ghost use Rattle.world_build.specs.Steps.{HasRoom, IsWithin};
ghost use Rattle.world_build.specs.SlotTexts.{nothing_told, tells, told, slot_text};
ghost use Rattle.source_model.specs.Edits.{Path};
ghost use Rattle.slot_text.specs.Contents.{AreOfEdit, initial};
ghost use Rattle.slot_text.specs.Telling.{shown};

use crate::contents::InitialTold;
use crate::teller::Teller;
use crate::told::{SlotTold, finish};
use self_grammar::Item;
use self_reader::MethodSlot;
use self_terms::{Names, OutOfMemory, Row};
use std::alloc::{AllocError, Global};
use std::mem;

// A path of one name.
fn path_of(alloc: Global, name: u32) -> Result<InitialTold, AllocError>
    ensures { IfOk result (λ path. initial path ≡ Path (name ∷ [])) }
{
    let mut names = Row::open(alloc);
    names.push(name)?;
    Ok(InitialTold::Path(names))
}

impl Teller {
    // One item.
    fn take(&mut self, alloc: Global, bytes: &[u8], item: Item) -> Result<(), AllocError>
        requires { HasRoom (shown self.old).loading }
        ensures { OnOk result (shown self.new ≡ tells bytes.now item (shown self.old)) }
    {
        match item {
            Item::Node(made) => {
                self.add_node(alloc, bytes, made)?;
                Ok(())
            }
            Item::Opened(_) => {
                self.open_body(alloc)?;
                Ok(())
            }
            Item::ClosedObject => Ok(()),
            Item::ClosedBody => {
                self.close();
                Ok(())
            }
            Item::Integer(int) => {
                self.held = InitialTold::Number(int);
                Ok(())
            }
            Item::Text { start, end } => {
                let string = self.next_string();
                self.add_string(alloc, bytes, start, end)?;
                self.held = InitialTold::String(string);
                Ok(())
            }
            Item::Root { name, spot: _ } => {
                self.held = path_of(alloc, name)?;
                Ok(())
            }
            Item::Further { name, spot: _ } => {
                self.held.add_name(name)?;
                Ok(())
            }
            Item::Argument(name) => {
                self.add_argument(name)?;
                Ok(())
            }
            Item::Named(name) => {
                self.add_waiting(name)?;
                Ok(())
            }
            Item::Slot { words, form, spot } => {
                self.end_slot(alloc, words, form, spot)?;
                Ok(())
            }
        }
    }

    // All items.
    fn take_all(&mut self, alloc: Global, bytes: &[u8], items: &[Item]) -> Result<(), AllocError>
        requires few { length items.now < 450000000 }
        requires room { IsWithin (450000000 - length items.now) (shown self.old).loading }
        ensures { OnOk result (shown self.new ≡ told bytes.now items.now (shown self.old)) }
    {
        for item in items {
            self.take(alloc, bytes, *item)?;
        }
        Ok(())
    }
}

/// What the text of an edit says, whose items these are: they were read of these bytes, and these are the names behind it. The
/// names get those that are made of several parts. The one other answer is want of memory.
pub fn slot_text_of(
    alloc: Global,
    bytes: &[u8],
    slot: &MethodSlot,
    names: &mut Names,
) -> Result<SlotTold, OutOfMemory>
    requires short { length bytes.now ≤ 1048576 }
    requires room { length names.old ≤ 400000000 }
    requires read { AreOfEdit names.old bytes.now slot.now.items.items }
    ensures told { IfOk result (λ t. t ≡ slot_text names.old bytes.now slot.now.items.items) }
    ensures names { OnOk result (names.new ≡ (told bytes.now slot.now.items.items (nothing_told names.old)).loading.names) }
{
    let own = mem::replace(names, Names::open(alloc)?);
    let mut teller = Teller::open(alloc, own);
    let all = teller.take_all(alloc, bytes, &slot.items);
    mem::swap(names, &mut teller.names);
    all?;
    finish(alloc, teller)
}
