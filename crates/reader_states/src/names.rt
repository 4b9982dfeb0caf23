// Names that a list of slots gets, and what is counted and broken with them.
ghost use Rattle.std.specs.Prelude.{◌≡◌, ◌∷◌, [], IfOk, OnOk};
ghost use Rattle.self_grammar.specs.Scopes.{with_argument};
ghost use Rattle.reader_states.specs.Turns.{argument_event, event_in, listed, name_event, setter_again, slot_item, with_name, with_setter};

use crate::counts::Event;
use crate::events::quiet;
use crate::frames::Label;
use crate::scopes::{Scope, duplicate};
use self_grammar::{Breach, Item, Limits, SlotForm, Spot, Words};
use std::alloc::AllocError;

/// The item of a slot that ends.
pub fn slot_item(label: Label, form: SlotForm) -> Item
    ensures { result ≡ slot_item label form }
{
    Item::Slot {
        words: Words::One(label.name),
        form,
        spot: label.spot,
    }
}

/// A list gets a slot of this name, which begins there.
pub fn name_in(
    limits: Limits,
    scope: &mut Scope,
    name: u32,
    spot: Spot,
) -> Result<Event, AllocError>
    ensures list { OnOk result (scope.new ≡ with_name limits name spot scope.old) }
    ensures event { IfOk result (λ event. event_in event ≡ name_event limits scope.old name spot) }
{
    let broken = scope.too_many_locals(limits);
    scope.add_local(limits, spot)?;
    let again = scope.add(Words::One(name))?;
    Ok(Event {
        counted: Some(spot),
        broken,
        broken_too: duplicate(again, spot),
        ..quiet()
    })
}

/// It gets an argument, with its item.
pub fn argument_in(
    limits: Limits,
    scope: &mut Scope,
    item: Item,
    name: u32,
    spot: Spot,
) -> Result<Event, AllocError>
    ensures list { OnOk result (scope.new ≡ with_argument (name ∷ []) scope.old) }
    ensures event { IfOk result (λ event. event_in event ≡ argument_event limits scope.old item name spot) }
{
    let broken = scope.too_many_arguments(limits);
    let again = scope.add_argument(name)?;
    Ok(Event {
        says: Some(item),
        counted: Some(spot),
        broken,
        broken_too: duplicate(again, spot),
        ..quiet()
    })
}

/// It gets an assignment slot: answers what that breaks.
pub fn setter_in(scope: &mut Scope, label: Label) -> Result<Option<Breach>, AllocError>
    ensures list { OnOk result (scope.new ≡ with_setter label scope.old) }
    ensures broken { IfOk result (λ broken. listed broken ≡ setter_again label scope.old) }
{
    let again = scope.add(Words::One(label.setter))?;
    Ok(duplicate(again, label.spot))
}
