// Lines of frames have room.
ghost use Rattle.std.specs.Prelude.{◌≡◌, ◌≤◌, ◌<◌, ◌+◌, ◌-◌, ◌*◌, ◌++◌, length, codes, decimal, flat_map, slice_get};
ghost use Rattle.source_model.specs.Lines.{local_names, object_text};
ghost use Rattle.source_model.specs.Texts.{integer_text, place_text};
ghost use Rattle.session_text.specs.Values.{block_text, maker_text, shown_text};
ghost use Rattle.session_text.specs.Frames.{frame_text, head_text, locals_text, pending_text, ActHasRoom, ActHasNames, HasShortNames};
ghost use Rattle.session_text.specs.LineTexts.{edit_mark};

use crate::acts::{Shown, ShownAct};
use crate::lines::{ShownValue, place_at};
use itoa::Buffer;
use self_terms::{Body, BodyList, Names, Place};
use source_model::Core;

fn number_is_short(number: u64)
    ensures { length (decimal number) ≤ 40 }
{
    let mut digits = Buffer::new();
    let _text = digits.format(number);
}

fn integer_is_short(integer: i32)
    ensures { length (integer_text integer) ≤ 40 }
{
    let mut digits = Buffer::new();
    let _text = digits.format(integer);
}

fn edit_is_short(edit: u32)
    ensures { length (edit_mark edit) ≤ 42 }
{
    if edit == 0 {
        return;
    }
    number_is_short(edit as u64);
}

fn place_is_short(place: Place)
    ensures { length (place_text place) ≤ 123 }
{
    edit_is_short(place.edit);
    number_is_short(place.line as u64);
    number_is_short(place.column as u64);
}

fn maker_is_short(maker: u32)
    ensures { length (maker_text maker) ≤ 40 }
{
    if maker == 0 {
        return;
    }
    number_is_short(maker as u64);
}

fn object_is_short(core: Core, object: u32)
    ensures { length (object_text core object) ≤ 41 }
{
    if object == 0 {
        return;
    }
    if object == core.nil {
        return;
    }
    if object == core.yes {
        return;
    }
    if object == core.no {
        return;
    }
    number_is_short(object as u64);
}

fn block_is_short(body: u32, maker: u32)
    ensures { length (block_text body maker) ≤ 83 }
{
    number_is_short(body as u64);
    maker_is_short(maker);
}

fn value_is_short(core: Core, value: ShownValue)
    ensures { length (shown_text core value) ≤ 83 }
{
    match value {
        ShownValue::Int(integer) => {
            integer_is_short(integer);
        }
        ShownValue::Object(object) => {
            object_is_short(core, object);
        }
        ShownValue::Block { body, maker } => {
            block_is_short(body.0, maker);
        }
    }
}

// Values, each behind a space.
fn values_are_short(core: Core, values: &[ShownValue])
    ensures { length (flat_map (λ v. codes " " ++ shown_text core v) values.now) ≤ 84 * length values.now }
{
    for value in values {
        value_is_short(core, *value);
    }
}

fn locals_are_short(core: Core, names: &Names, body: &Body, values: &[ShownValue])
    requires short { HasShortNames names.now body.now }
    requires few { length values.now ≤ 79 }
    ensures { length (locals_text core names.now (local_names body.now) values.now) ≤ 1950000 + 85 * 79 }
{
    let _names = names;
    let _body = body;
    values_are_short(core, values);
}

fn pending_is_short(core: Core, values: &[ShownValue])
    requires { length values.now ≤ 79 }
    ensures { length (pending_text core values.now) ≤ 3 + 84 * 79 }
{
    values_are_short(core, values);
}

fn head_is_short(core: Core, names: &Names, body: &Body, position: u32, act: &ShownAct)
    requires { HasShortNames names.now body.now }
    ensures { length (head_text core names.now body.now position act.now) ≤ 1950000 + 260 }
{
    let _names = names;
    number_is_short(position as u64);
    place_is_short(place_at(body, act.next));
    value_is_short(core, act.receiver);
}

/// A law: the line of an activation has room where the names of its body do: that of its slot, and those of arguments and locals together, have at most
/// 1,950,000 bytes each. A text has 1,048,576.
pub fn activation_has_room(core: Core, names: &Names, body: &Body, position: u32, act: &ShownAct)
    requires { HasShortNames names.now body.now }
    ensures { length (frame_text core names.now body.now position act.now) ≤ 4000000 }
{
    head_is_short(core, names, body, position, act);
    locals_are_short(core, names, body, act.locals.as_slice());
    pending_is_short(core, act.pending.as_slice());
}

/// A law: so has the line of a frame that is shown.
pub fn frames_have_room(shown: &Shown, position: u32, core: Core, names: &Names, bodies: &BodyList)
    requires given { 0 < position }
    requires names { ActHasNames names.now bodies.now (slice_get shown.now (position - 1)) }
    ensures { ActHasRoom core names.now bodies.now position (slice_get shown.now (position - 1)) }
{
    let act = shown.at(position);
    activation_has_room(core, names, bodies.at(act.body.0), position, act);
}
