// The locals and arguments of bodies, and the slot of an edit's text.
ghost use Rattle.std.specs.Prelude.{◌≡◌, ◌≤◌, [], OnOk};
ghost use Rattle.self_grammar.specs.declared.pieces.Item.TheVariants.{Slot};
ghost use Rattle.source_model.specs.Edits.{Nothing};
ghost use Rattle.world_build.specs.Loading.{innermost, local_for, placed_in, name_body, with_slot, argument_in, with_argument, with_waiting, body_in};
ghost use Rattle.world_build.specs.Steps.{HasRoom};
ghost use Rattle.world_build.specs.SlotTexts.{builds, tells, initial_for, local_told};
ghost use Rattle.slot_text.specs.Contents.{initial};
ghost use Rattle.world_build.specs.SlotParts.{code_of};
ghost use Rattle.slot_text.specs.Telling.{shown};

use crate::contents::{InitialTold, Kept};
use crate::naming::words;
use crate::teller::Teller;
use self_grammar::{SlotForm, Spot, Words};
use self_terms::{Datum, Local};
use std::alloc::{AllocError, Global};
use std::mem;

// A local, before it is known what its content is.
fn local_for(name: u32, form: SlotForm, code: Option<u32>) -> Local
    ensures { result ≡ local_for name form (code_of code) }
{
    let setter = match form {
        SlotForm::Constant => None,
        SlotForm::Assignable { setter } => Some(setter),
        SlotForm::Bare { setter } => Some(setter),
        SlotForm::Parent => None,
        SlotForm::Method => None,
    };
    Local {
        name,
        setter,
        initial: Datum::Nil,
    }
}

// A name alone holds nil.
fn initial_for(form: SlotForm, held: InitialTold) -> InitialTold
    ensures { initial result ≡ initial_for form (initial held) }
{
    match form {
        SlotForm::Bare { setter: _ } => InitialTold::Nothing,
        _ => held,
    }
}

impl Teller {
    // A slot of the body that is open innermost.
    fn put_local(&mut self, name: u32, form: SlotForm) -> Result<(), AllocError>
        ensures { OnOk result (shown self.new ≡ builds (placed_in (innermost (shown self.old).loading.around) name form (shown self.old).loading) (shown self.old)) }
    {
        match self.innermost() {
            None => Ok(()),
            Some(body) => {
                self.bodies
                    .add_local(body, local_for(name, form, self.code))?;
                Ok(())
            }
        }
    }

    // A method's body has the name of its slot.
    fn name_body(&mut self, name: u32, form: SlotForm)
        ensures { shown self.new ≡ builds (name_body (code_of self.old.code) name form (shown self.old).loading) (shown self.old) }
    {
        match (self.code, form) {
            (Some(body), SlotForm::Method) => {
                self.bodies.set_name(body, name);
                return;
            }
            _ => {}
        }
    }

    // What the local holds of which a slot tells.
    fn keep(&mut self, form: SlotForm) -> Result<(), AllocError>
        ensures { OnOk result (shown self.new ≡ record (shown self.old) { held = Nothing; initials = local_told (body_in (innermost (shown self.old).loading.around)) (initial_for form (initial self.old.held)) (shown self.old).initials }) }
    {
        let held = mem::replace(&mut self.held, InitialTold::Nothing);
        match self.innermost() {
            None => Ok(()),
            Some(body) => {
                self.kept.push(Kept {
                    body,
                    initial: initial_for(form, held),
                })?;
                Ok(())
            }
        }
    }

    fn add_member(&mut self, name: u32, form: SlotForm) -> Result<(), AllocError>
        requires { self.old.size ≤ 450000000 }
        ensures { OnOk result (shown self.new ≡ builds (with_slot name form (shown self.old).loading) (shown self.old)) }
    {
        self.name_body(name, form);
        self.put_local(name, form)?;
        self.code = None;
        self.size += 1;
        Ok(())
    }

    // A slot of the text ends.
    pub fn end_slot(
        &mut self,
        alloc: Global,
        parts: Words,
        form: SlotForm,
        spot: Spot,
    ) -> Result<(), AllocError>
        requires { HasRoom (shown self.old).loading }
        ensures { OnOk result (shown self.new ≡ tells [] (Slot parts form spot) (shown self.old)) }
    {
        let name = words(alloc, &mut self.names, parts)?;
        self.keep(form)?;
        self.add_member(name, form)?;
        self.name = name;
        Ok(())
    }

    // An argument of the body that is open innermost.
    fn put_argument(&mut self, name: u32) -> Result<(), AllocError>
        ensures { OnOk result (shown self.new ≡ builds (argument_in (innermost (shown self.old).loading.around) name (shown self.old).loading) (shown self.old)) }
    {
        match self.innermost() {
            None => Ok(()),
            Some(body) => {
                self.bodies.add_argument(body, name)?;
                Ok(())
            }
        }
    }

    pub fn add_argument(&mut self, name: u32) -> Result<(), AllocError>
        requires { HasRoom (shown self.old).loading }
        ensures { OnOk result (shown self.new ≡ builds (with_argument name (shown self.old).loading) (shown self.old)) }
    {
        self.put_argument(name)?;
        self.size += 1;
        Ok(())
    }

    // An argument of the body that opens next.
    pub fn add_waiting(&mut self, name: u32) -> Result<(), AllocError>
        requires { HasRoom (shown self.old).loading }
        ensures { OnOk result (shown self.new ≡ builds (with_waiting name (shown self.old).loading) (shown self.old)) }
    {
        self.waiting.push(name)?;
        self.size += 1;
        Ok(())
    }
}
