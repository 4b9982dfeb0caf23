// The slots of objects and bodies.
ghost use Rattle.std.specs.Prelude.{◌≡◌, ◌≢◌, ◌≤◌, IfErr, OnOk, Ok, Err};
ghost use Rattle.world_build.specs.declared.slots.ToldContent.TheVariants.{Assignable, Assignment};
ghost use Rattle.world_build.specs.declared.refusals.BuildRefusal.TheVariants.{OutOfMemory};
ghost use Rattle.world_build.specs.Loading.{innermost, at_object, value_in, body_number, slots_for, add_slots, local_for, placed_in, name_body, with_slot, may_be_parent, is_parent, slot_ended, argument_in, with_argument, with_waiting};
ghost use Rattle.world_build.specs.Steps.{HasRoom};

use crate::loading::{Loading, place};
use crate::refusals::BuildRefusal;
use crate::slots::{ToldContent, ToldSlot};
use crate::values::{Held, Open};
use self_grammar::{SlotForm, Spot, Words};
use self_terms::{Datum, Local};
use std::alloc::{AllocError, Global};

// What a slot holds that ends here.
fn value_in(held: Held) -> Datum
    ensures { result ≡ value_in held }
{
    match held {
        Held::Nothing => Datum::Nil,
        Held::Data(value) => value,
        Held::Code(_) => Datum::Nil,
    }
}

fn body_number(held: Held) -> u32
    ensures { result ≡ body_number held }
{
    match held {
        Held::Nothing => 0,
        Held::Data(_) => 0,
        Held::Code(body) => body,
    }
}

fn local_for(name: u32, form: SlotForm, held: Held) -> Local
    ensures { result ≡ local_for name form held }
{
    match form {
        SlotForm::Constant => Local {
            name,
            setter: None,
            initial: value_in(held),
        },
        SlotForm::Assignable { setter } => Local {
            name,
            setter: Some(setter),
            initial: value_in(held),
        },
        SlotForm::Bare { setter } => Local {
            name,
            setter: Some(setter),
            initial: Datum::Nil,
        },
        SlotForm::Parent => Local {
            name,
            setter: None,
            initial: value_in(held),
        },
        SlotForm::Method => Local {
            name,
            setter: None,
            initial: Datum::Nil,
        },
    }
}

fn is_parent(form: SlotForm) -> bool
    ensures { result ≡ is_parent form }
{
    match form {
        SlotForm::Parent => true,
        _ => false,
    }
}

impl Loading {
    // One slot more in an object.
    fn add_slot(&mut self, object: u32, name: u32, content: ToldContent) -> Result<(), AllocError>
        ensures { OnOk result (self.new ≡ at_object object (record { name = name; content = content }) self.old) }
    {
        self.things.add_slot(object, ToldSlot { name, content })?;
        Ok(())
    }

    // An assignable slot makes its assignment slot too.
    fn add_assignable(
        &mut self,
        object: u32,
        name: u32,
        value: Datum,
        setter: u32,
    ) -> Result<(), AllocError>
        ensures { OnOk result (self.new ≡ at_object object (record { name = setter; content = Assignment }) (at_object object (record { name = name; content = Assignable value }) self.old)) }
    {
        self.add_slot(object, name, ToldContent::Assignable(value))?;
        self.add_slot(object, setter, ToldContent::Assignment)?;
        Ok(())
    }

    // The slots of an object that a slot of the text makes.
    fn add_slots(&mut self, object: u32, name: u32, form: SlotForm) -> Result<(), AllocError>
        ensures { OnOk result (self.new ≡ add_slots object (slots_for name form self.old.held) self.old) }
    {
        let value = value_in(self.held);
        match form {
            SlotForm::Constant => {
                self.add_slot(object, name, ToldContent::Constant(value))?;
                Ok(())
            }
            SlotForm::Assignable { setter } => {
                self.add_assignable(object, name, value, setter)?;
                Ok(())
            }
            SlotForm::Bare { setter } => {
                self.add_assignable(object, name, Datum::Nil, setter)?;
                Ok(())
            }
            SlotForm::Parent => {
                self.add_slot(object, name, ToldContent::Parent(value))?;
                Ok(())
            }
            SlotForm::Method => {
                self.add_slot(object, name, ToldContent::Method(body_number(self.held)))?;
                Ok(())
            }
        }
    }

    // A slot of what is open innermost.
    fn put_slot(&mut self, name: u32, form: SlotForm) -> Result<(), AllocError>
        ensures { OnOk result (self.new ≡ placed_in (innermost self.old.around) name form self.old) }
    {
        match self.innermost() {
            None => Ok(()),
            Some(Open::InObject(object)) => {
                self.add_slots(object, name, form)?;
                Ok(())
            }
            Some(Open::InBody(body)) => {
                self.bodies
                    .add_local(body, local_for(name, form, self.held))?;
                Ok(())
            }
        }
    }

    // A method's body has the name of its slot.
    fn name_body(&mut self, name: u32, form: SlotForm)
        ensures { self.new ≡ name_body self.old.held name form self.old }
    {
        match (self.held, form) {
            (Held::Code(body), SlotForm::Method) => {
                self.bodies.set_name(body, name);
                return;
            }
            _ => {}
        }
    }

    fn add_member(&mut self, name: u32, form: SlotForm) -> Result<(), AllocError>
        requires { self.old.size ≤ 450000000 }
        ensures { OnOk result (self.new ≡ with_slot name form self.old) }
    {
        self.name_body(name, form);
        self.put_slot(name, form)?;
        self.held = Held::Nothing;
        self.size += 1;
        Ok(())
    }

    // An integer or a string is no parent.
    fn may_be_parent(&self, held: Held) -> bool
        ensures { result ≡ may_be_parent self.now held }
    {
        match held {
            Held::Nothing => true,
            Held::Data(Datum::Integer(_)) => false,
            Held::Data(Datum::Object(object)) => !self.things.is_string(object),
            Held::Data(Datum::Nil) => true,
            Held::Code(_) => true,
        }
    }

    // A slot of the text ends.
    pub fn end_slot(
        &mut self,
        alloc: Global,
        words: Words,
        form: SlotForm,
        spot: Spot,
    ) -> Result<(), BuildRefusal>
        requires { HasRoom self.old }
        ensures taken { OnOk result (slot_ended words form spot self.old ≡ Ok self.new) }
        ensures refused { IfErr result (λ e. e ≢ OutOfMemory → slot_ended words form spot self.old ≡ Err e) }
    {
        if is_parent(form) && !self.may_be_parent(self.held) {
            return Err(BuildRefusal::ParentNotObject(place(spot)));
        }
        let name = self.names.words(alloc, words)?;
        self.add_member(name, form)?;
        Ok(())
    }

    // An argument of the body that is open innermost.
    fn put_argument(&mut self, name: u32) -> Result<(), AllocError>
        ensures { OnOk result (self.new ≡ argument_in (innermost self.old.around) name self.old) }
    {
        match self.innermost() {
            None => Ok(()),
            Some(Open::InObject(_)) => Ok(()),
            Some(Open::InBody(body)) => {
                self.bodies.add_argument(body, name)?;
                Ok(())
            }
        }
    }

    pub fn add_argument(&mut self, name: u32) -> Result<(), AllocError>
        requires { HasRoom self.old }
        ensures { OnOk result (self.new ≡ with_argument name self.old) }
    {
        self.put_argument(name)?;
        self.size += 1;
        Ok(())
    }

    // An argument of the body that opens next.
    pub fn add_waiting(&mut self, name: u32) -> Result<(), AllocError>
        requires { HasRoom self.old }
        ensures { OnOk result (self.new ≡ with_waiting name self.old) }
    {
        self.waiting.push(name)?;
        self.size += 1;
        Ok(())
    }
}
