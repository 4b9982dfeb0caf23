// The items of a text, one after the other.
ghost use Rattle.std.specs.Prelude.{◌≡◌, ◌≢◌, ◌-◌, ◌<◌, length, IfErr, OnOk, Ok, Err};
ghost use Rattle.self_terms.specs.declared.values.Datum.TheVariants.{Object as object};
ghost use Rattle.world_build.specs.declared.refusals.BuildRefusal.TheVariants.{OutOfMemory};
ghost use Rattle.world_build.specs.Loading.{opened, holding, with_string};
ghost use Rattle.world_build.specs.Nodes.{loaded};
ghost use Rattle.world_build.specs.Kinds.{openings};
ghost use Rattle.world_build.specs.Steps.{HasRoom, IsWithin, take_one};

use crate::kinds::next_kind;
use crate::lists::Stack;
use crate::loading::Loading;
use crate::refusals::BuildRefusal;
use crate::values::Held;
use self_grammar::Item;
use self_terms::Datum;
use std::alloc::{AllocError, Global};

impl Loading {
    // An object opens, or a body.
    fn open_next(&mut self, alloc: Global, object: bool) -> Result<(), AllocError>
        requires { HasRoom self.old }
        ensures { OnOk result (self.new ≡ opened object self.old) }
    {
        if object {
            self.open_object(alloc)?;
            return Ok(());
        }
        self.open_body(alloc)?;
        Ok(())
    }

    fn hold_string(
        &mut self,
        alloc: Global,
        bytes: &[u8],
        start: usize,
        end: usize,
    ) -> Result<(), AllocError>
        requires { HasRoom self.old }
        ensures { OnOk result (self.new ≡ holding (with_string bytes.now start end self.old) (object (length self.old.things))) }
    {
        let object = self.things.len() as u32;
        self.add_string(alloc, bytes, start, end)?;
        self.held = Held::Data(Datum::Object(object));
        Ok(())
    }

    // One item, where it is known whether what it opens is an object.
    fn take(
        &mut self,
        alloc: Global,
        bytes: &[u8],
        item: Item,
        object: bool,
    ) -> Result<(), BuildRefusal>
        requires { HasRoom self.old }
        ensures taken { OnOk result (take_one bytes.now object item self.old ≡ Ok self.new) }
        ensures refused { IfErr result (λ e. e ≢ OutOfMemory → take_one bytes.now object item self.old ≡ Err e) }
    {
        match item {
            Item::Node(made) => {
                self.add_node(alloc, bytes, made)?;
                Ok(())
            }
            Item::Opened(_) => {
                self.open_next(alloc, object)?;
                Ok(())
            }
            Item::ClosedObject => {
                self.close();
                Ok(())
            }
            Item::ClosedBody => {
                self.close();
                Ok(())
            }
            Item::Integer(int) => {
                self.held = Held::Data(Datum::Integer(int));
                Ok(())
            }
            Item::Text { start, end } => {
                self.hold_string(alloc, bytes, start, end)?;
                Ok(())
            }
            Item::Root { name, spot } => self.follow(spot, self.root(name)),
            Item::Further { name, spot } => self.follow(spot, self.further(name)),
            Item::Argument(name) => {
                self.add_argument(name)?;
                Ok(())
            }
            Item::Named(name) => {
                self.add_waiting(name)?;
                Ok(())
            }
            Item::Slot { words, form, spot } => self.end_slot(alloc, words, form, spot),
        }
    }
}

// All items, with what each that opens something opens.
pub(crate) fn load_items(
    loading: &mut Loading,
    alloc: Global,
    bytes: &[u8],
    items: &[Item],
    kinds: &mut Stack<bool>,
) -> Result<(), BuildRefusal>
    requires few { length items.now < 450000000 }
    requires room { IsWithin (450000000 - length items.now) loading.old }
    requires kinds { kinds.old ≡ openings items.now }
    ensures taken { OnOk result (loaded bytes.now items.now loading.old ≡ Ok loading.new) }
    ensures refused { IfErr result (λ e. e ≢ OutOfMemory → loaded bytes.now items.now loading.old ≡ Err e) }
    ensures room { OnOk result (HasRoom loading.new) }
{
    for item in items {
        let object = next_kind(kinds, *item);
        loading.take(alloc, bytes, *item, object)?;
    }
    Ok(())
}
