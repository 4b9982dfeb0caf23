// The lines that a session writes.
ghost use Rattle.std.specs.Prelude.{◌≡◌, ◌≤◌, ◌<◌, ◌+◌, ◌-◌, ◌++◌, [], List, ℕ, length, codes, decimal, flat_map, IfOk, slice_get};
ghost use Rattle.source_model.specs.Lines.{activity_line, error_line, line, local_names, object_text, selector_text, stop_line};
ghost use Rattle.source_model.specs.Names.{text_named};
ghost use Rattle.source_model.specs.Soundness.{body_in};
ghost use Rattle.source_model.specs.Step.{place_at};
ghost use Rattle.source_model.specs.Texts.{error_text, hex, integer_text, out_line, place_text, shown_byte};
ghost use Rattle.session_text.specs.Frames.{frame_text, head_text, local_text, locals_text, values_text, pending_text, act_text, ActHasRoom};
ghost use Rattle.session_text.specs.LineTexts.{HasRoom, advisor_line, block_text, check_line, done_line, edit_mark, line_text, maker_text, placed_line, refused_line, shown_text, spot_text};

use crate::acts::{Shown, ShownAct};
use itoa::Buffer;
use self_terms::{Body, BodyId, BodyList, ErrorName, Name, Names, OutOfMemory, Place};
use source_model::Core;
use std::alloc::Global;
use std::marker::Model;

/// A value beside the activations of the current activity: an integer, an object by its number, or a block with its body and
/// the position of its maker among these, from 1 for the oldest, or 0 where the maker isn't one of them.
#[derive(Clone, Copy)]
pub enum ShownValue {
    Int(i32),
    Object(u32),
    Block { body: BodyId, maker: u32 },
}

/// What a line says.
#[derive(Clone, Copy)]
pub enum LineText<'a> {
    /// A line without a number, as `edited` or a refusal of a command.
    Fixed(&'a str),
    /// A text, then ` at `, line and column.
    Placed {
        text: &'a str,
        at: Place,
    },
    /// The activity of this number is the current one.
    Activity(u8),
    /// The advisor K was chosen, or with 0 the present one dropped.
    Advisor(u32),
    /// A world's objects and bodies, and its size.
    Check {
        objects: u32,
        bodies: u32,
        size: u32,
    },
    /// The line of a script that is no command.
    ScriptRefused(u32),
    /// A run stopped before the node at this place, after so many steps of the session.
    Stop {
        steps: u64,
        at: Place,
    },
    /// A run ended its activity with a value, after so many steps of the session.
    Done {
        value: ShownValue,
        core: Core,
        steps: u64,
    },
    /// An error ended an activity at this place, after so many steps of the session.
    Error {
        name: ErrorName,
        steps: u64,
        at: Place,
    },
    /// The activation at a position, from 1 for the oldest.
    Frame {
        shown: &'a Shown,
        position: u32,
        core: Core,
        names: &'a Names,
        bodies: &'a BodyList,
    },
    /// Bytes that a program printed.
    Out(&'a [u8]),
}

/// One line at a time, with room for 4,200,000 bytes, which is taken when it is made. Contracts see the bytes of the line.
#[derive(Drop)]
pub struct Line {
    bytes: Vec<u8>,
}

impl Model for Line {
    ghost use Rattle.std.specs.Prelude.{List, ℕ, ◌≤◌};
    ghost use Rattle.std.specs.Vec.{vec_capacity};

    ghost Value = { List ℕ };

    ghost view = { λ l. l.bytes.items };

    ghost invariant = { λ l. 4200000 ≤ vec_capacity l.bytes };
}

impl Line {
    /// No line.
    pub fn open(alloc: Global) -> Result<Line, OutOfMemory>
        ensures { IfOk result (λ line. line ≡ []) }
    {
        Ok(Line {
            bytes: Vec::with_capacity(alloc, 4_200_000)?,
        })
    }

    /// The bytes of the line, with its newline.
    pub fn bytes(&self) -> &[u8]
        ensures { result.now ≡ self.now }
    {
        self.bytes.as_slice()
    }

    /// Puts one whole line in place of the one that was held. Takes no memory.
    pub fn put(&mut self, text: &LineText)
        requires { HasRoom text.now }
        ensures { self.new ≡ line_text text.now }
    {
        self.bytes.clear();
        match *text {
            LineText::Fixed(text) => {
                self.put_fixed(text);
            }
            LineText::Placed { text, at } => {
                self.put_placed(text, at);
            }
            LineText::Activity(number) => {
                self.put_activity(number);
            }
            LineText::Advisor(number) => {
                self.put_advisor(number);
            }
            LineText::Check {
                objects,
                bodies,
                size,
            } => {
                self.put_check(objects, bodies, size);
            }
            LineText::ScriptRefused(number) => {
                self.put_refused(number);
            }
            LineText::Stop { steps, at } => {
                self.put_stop(steps, at);
            }
            LineText::Done { value, core, steps } => {
                self.put_done(value, core, steps);
            }
            LineText::Error { name, steps, at } => {
                self.put_error(name, steps, at);
            }
            LineText::Frame {
                shown,
                position,
                core,
                names,
                bodies,
            } => {
                self.put_frame(shown, position, core, names, bodies);
            }
            LineText::Out(bytes) => {
                self.put_out(bytes);
            }
        }
    }

    /// Puts the line of an activation of a body, at a position from 1 for the oldest, in place of the one that was held. Takes no memory.
    pub fn put_activation(
        &mut self,
        core: Core,
        names: &Names,
        body: &Body,
        position: u32,
        act: &ShownAct,
    )
        requires { length (frame_text core names.now body.now position act.now) ≤ 4000000 }
        ensures { self.new ≡ frame_text core names.now body.now position act.now }
    {
        self.bytes.clear();
        self.put_act(core, names, body, position, act);
    }

    // More bytes of the line.
    fn put_bytes(&mut self, piece: &[u8])
        requires { length self.old + length piece.now ≤ 4200000 }
        ensures text { self.new ≡ self.old ++ piece.now }
        ensures len { length self.new ≡ length self.old + length piece.now }
    {
        if self.bytes.extend_from_slice(piece).is_err() {
            unreachable!();
        }
    }

    // The digits of a number.
    fn put_number(&mut self, number: u64)
        requires { length self.old + 40 ≤ 4200000 }
        ensures text { self.new ≡ self.old ++ decimal number }
        ensures len { length self.new ≤ length self.old + 40 }
    {
        let mut digits = Buffer::new();
        self.put_bytes(digits.format(number).as_bytes());
    }

    // The digits of an integer, with a minus sign below 0.
    fn put_integer(&mut self, integer: i32)
        requires { length self.old + 40 ≤ 4200000 }
        ensures text { self.new ≡ self.old ++ integer_text integer }
        ensures len { length self.new ≤ length self.old + 40 }
    {
        let mut digits = Buffer::new();
        self.put_bytes(digits.format(integer).as_bytes());
    }

    // The mark of an accepted edit's text.
    fn put_edit(&mut self, edit: u32)
        requires { length self.old + 42 ≤ 4200000 }
        ensures text { self.new ≡ self.old ++ edit_mark edit }
        ensures len { length self.new ≤ length self.old + 42 }
    {
        if edit == 0 {
            return;
        }
        self.put_bytes(b"e");
        self.put_number(edit as u64);
        self.put_bytes(b"/");
    }

    // A place of a text.
    fn put_place(&mut self, place: Place)
        requires { length self.old + 123 ≤ 4200000 }
        ensures text { self.new ≡ self.old ++ place_text place }
        ensures len { length self.new ≤ length self.old + 123 }
    {
        self.put_edit(place.edit);
        self.put_number(place.line as u64);
        self.put_bytes(b":");
        self.put_number(place.column as u64);
    }

    // The position of a block's maker.
    fn put_maker(&mut self, maker: u32)
        requires { length self.old + 40 ≤ 4200000 }
        ensures text { self.new ≡ self.old ++ maker_text maker }
        ensures len { length self.new ≤ length self.old + 40 }
    {
        if maker == 0 {
            self.put_bytes(b"-");
            return;
        }
        self.put_number(maker as u64);
    }

    fn put_object(&mut self, core: Core, object: u32)
        requires { length self.old + 41 ≤ 4200000 }
        ensures text { self.new ≡ self.old ++ object_text core object }
        ensures len { length self.new ≤ length self.old + 41 }
    {
        if object == 0 {
            self.put_bytes(b"lobby");
            return;
        }
        if object == core.nil {
            self.put_bytes(b"nil");
            return;
        }
        if object == core.yes {
            self.put_bytes(b"true");
            return;
        }
        if object == core.no {
            self.put_bytes(b"false");
            return;
        }
        self.put_bytes(b"#");
        self.put_number(object as u64);
    }

    fn put_block(&mut self, body: u32, maker: u32)
        requires { length self.old + 83 ≤ 4200000 }
        ensures text { self.new ≡ self.old ++ block_text body maker }
        ensures len { length self.new ≤ length self.old + 83 }
    {
        self.put_bytes(b"[");
        self.put_number(body as u64);
        self.put_bytes(b"@");
        self.put_maker(maker);
        self.put_bytes(b"]");
    }

    // A value.
    fn put_value(&mut self, core: Core, value: ShownValue)
        requires { length self.old + 83 ≤ 4200000 }
        ensures text { self.new ≡ self.old ++ shown_text core value }
        ensures len { length self.new ≤ length self.old + 83 }
    {
        match value {
            ShownValue::Int(integer) => {
                self.put_integer(integer);
            }
            ShownValue::Object(object) => {
                self.put_object(core, object);
            }
            ShownValue::Block { body, maker } => {
                self.put_block(body.0, maker);
            }
        }
    }

    // Line and column of a place.
    fn put_spot(&mut self, line: u32, column: u32)
        requires { length self.old + 81 ≤ 4200000 }
        ensures text { self.new ≡ self.old ++ spot_text line column }
        ensures len { length self.new ≤ length self.old + 81 }
    {
        self.put_number(line as u64);
        self.put_bytes(b":");
        self.put_number(column as u64);
    }

    fn put_fixed(&mut self, text: &str)
        requires empty { self.old ≡ [] }
        requires within { length text.now ≤ 4000000 }
        ensures { self.new ≡ line text.now }
    {
        self.put_bytes(text.as_bytes());
        self.put_bytes(b"\n");
    }

    fn put_placed(&mut self, text: &str, at: Place)
        requires empty { self.old ≡ [] }
        requires within { length text.now ≤ 4000000 }
        ensures { self.new ≡ placed_line text.now at }
    {
        self.put_bytes(text.as_bytes());
        self.put_bytes(b" at ");
        self.put_spot(at.line, at.column);
        self.put_bytes(b"\n");
    }

    fn put_activity(&mut self, number: u8)
        requires { self.old ≡ [] }
        ensures { self.new ≡ activity_line number }
    {
        self.put_bytes(b"activity ");
        self.put_number(number as u64);
        self.put_bytes(b"\n");
    }

    fn put_advisor(&mut self, number: u32)
        requires { self.old ≡ [] }
        ensures { self.new ≡ advisor_line number }
    {
        self.put_bytes(b"advisor ");
        self.put_number(number as u64);
        self.put_bytes(b"\n");
    }

    fn put_check(&mut self, objects: u32, bodies: u32, size: u32)
        requires { self.old ≡ [] }
        ensures { self.new ≡ check_line objects bodies size }
    {
        self.put_bytes(b"ok ");
        self.put_number(objects as u64);
        self.put_bytes(b" objects ");
        self.put_number(bodies as u64);
        self.put_bytes(b" bodies size ");
        self.put_number(size as u64);
        self.put_bytes(b"\n");
    }

    fn put_refused(&mut self, number: u32)
        requires { self.old ≡ [] }
        ensures { self.new ≡ refused_line number }
    {
        self.put_bytes(b"script refused line ");
        self.put_number(number as u64);
        self.put_bytes(b"\n");
    }

    fn put_stop(&mut self, steps: u64, at: Place)
        requires { self.old ≡ [] }
        ensures { self.new ≡ stop_line steps at }
    {
        self.put_bytes(b"stop at ");
        self.put_number(steps);
        self.put_bytes(b" line ");
        self.put_place(at);
        self.put_bytes(b"\n");
    }

    fn put_done(&mut self, value: ShownValue, core: Core, steps: u64)
        requires { self.old ≡ [] }
        ensures { self.new ≡ done_line core value steps }
    {
        self.put_bytes(b"done ");
        self.put_value(core, value);
        self.put_bytes(b" at ");
        self.put_number(steps);
        self.put_bytes(b"\n");
    }

    fn put_error(&mut self, name: ErrorName, steps: u64, at: Place)
        requires { self.old ≡ [] }
        ensures { self.new ≡ error_line name steps at }
    {
        self.put_bytes(b"error ");
        self.put_bytes(error_text(name));
        self.put_bytes(b" at ");
        self.put_number(steps);
        self.put_bytes(b" line ");
        self.put_place(at);
        self.put_bytes(b"\n");
    }

    // The name of a body's slot; that of a block is `block`.
    fn put_selector(&mut self, names: &Names, name: Option<u32>)
        requires { length self.old + length (selector_text names.now name) ≤ 4200000 }
        ensures text { self.new ≡ self.old ++ selector_text names.now name }
        ensures len { length self.new ≡ length self.old + length (selector_text names.now name) }
    {
        match name {
            Some(name) => {
                self.put_bytes(text_named(names, name));
            }
            None => {
                self.put_bytes(b"block");
            }
        }
    }

    // A local with its name.
    fn put_local(&mut self, core: Core, names: &Names, name: u32, value: ShownValue)
        requires { length self.old + length (local_text core names.now (name, value)) ≤ 4000000 }
        ensures text { self.new ≡ self.old ++ local_text core names.now (name, value) }
        ensures len { length self.new ≡ length self.old + length (local_text core names.now (name, value)) }
    {
        self.put_bytes(b" ");
        self.put_bytes(text_named(names, name));
        self.put_bytes(b"=");
        self.put_value(core, value);
    }

    // The locals of a body with their values.
    fn put_locals(&mut self, core: Core, names: &Names, body: &Body, values: &[ShownValue])
        requires { length self.old + length (locals_text core names.now (local_names body.now) values.now) ≤ 4000000 }
        ensures text { self.new ≡ self.old ++ locals_text core names.now (local_names body.now) values.now }
        ensures len { length self.new ≡ length self.old + length (locals_text core names.now (local_names body.now) values.now) }
    {
        for k in 0..values.len() {
            let Some(name) = local_name(body, k) else {
                return;
            };
            self.put_local(core, names, name, values[k]);
        }
    }

    // Values, each behind a space.
    fn put_more(&mut self, core: Core, values: &[ShownValue])
        requires { length self.old + length (flat_map (λ v. codes " " ++ shown_text core v) values.now) ≤ 4000000 }
        ensures text { self.new ≡ self.old ++ flat_map (λ v. codes " " ++ shown_text core v) values.now }
        ensures len { length self.new ≡ length self.old + length (flat_map (λ v. codes " " ++ shown_text core v) values.now) }
    {
        for value in values {
            self.put_bytes(b" ");
            self.put_value(core, *value);
        }
    }

    // Values with a space between each two.
    fn put_values(&mut self, core: Core, values: &[ShownValue])
        requires { length self.old + length (values_text core values.now) ≤ 4000000 }
        ensures text { self.new ≡ self.old ++ values_text core values.now }
        ensures len { length self.new ≡ length self.old + length (values_text core values.now) }
    {
        if values.is_empty() {
            return;
        }
        self.put_value(core, values[0]);
        self.put_more(core, &values[1..]);
    }

    // Pending values.
    fn put_pending(&mut self, core: Core, values: &[ShownValue])
        requires { length self.old + length (pending_text core values.now) ≤ 4000000 }
        ensures text { self.new ≡ self.old ++ pending_text core values.now }
        ensures len { length self.new ≡ length self.old + length (pending_text core values.now) }
    {
        self.put_bytes(b" [");
        self.put_values(core, values);
        self.put_bytes(b"]");
    }

    // An activation of a body, up to its receiver.
    fn put_head(&mut self, core: Core, names: &Names, body: &Body, position: u32, act: &ShownAct)
        requires empty { self.old ≡ [] }
        requires within { length (head_text core names.now body.now position act.now) ≤ 4000000 }
        ensures { self.new ≡ head_text core names.now body.now position act.now }
    {
        self.put_bytes(b"frame ");
        self.put_number(position as u64);
        self.put_bytes(b" ");
        self.put_selector(names, body.name);
        self.put_bytes(b" ");
        self.put_place(place_at(body, act.next));
        self.put_bytes(b" self ");
        self.put_value(core, act.receiver);
    }

    // An activation of a body.
    fn put_act(&mut self, core: Core, names: &Names, body: &Body, position: u32, act: &ShownAct)
        requires empty { self.old ≡ [] }
        requires within { length (frame_text core names.now body.now position act.now) ≤ 4000000 }
        ensures { self.new ≡ frame_text core names.now body.now position act.now }
    {
        self.put_head(core, names, body, position, act);
        self.put_locals(core, names, body, act.locals.as_slice());
        self.put_pending(core, act.pending.as_slice());
        self.put_bytes(b"\n");
    }

    // The activation at a position.
    fn put_frame(
        &mut self,
        shown: &Shown,
        position: u32,
        core: Core,
        names: &Names,
        bodies: &BodyList,
    )
        requires empty { self.old ≡ [] }
        requires given { 0 < position }
        requires within { ActHasRoom core names.now bodies.now position (slice_get shown.now (position - 1)) }
        ensures { self.new ≡ act_text core names.now bodies.now position (slice_get shown.now (position - 1)) }
    {
        let act = shown.at(position);
        self.put_act(core, names, bodies.at(act.body.0), position, act);
    }

    // A printed byte, as it is shown.
    fn put_shown(&mut self, byte: u8)
        requires { length self.old + 4 ≤ 4200000 }
        ensures text { self.new ≡ self.old ++ shown_byte byte }
        ensures len { length self.new ≤ length self.old + 4 }
    {
        if byte == b'\\' {
            self.put_bytes(b"\\\\");
            return;
        }
        if byte == b'\n' {
            self.put_bytes(b"\\n");
            return;
        }
        if byte == b'\t' {
            self.put_bytes(b"\\t");
            return;
        }
        if byte == b'\r' {
            self.put_bytes(b"\\r");
            return;
        }
        if (32..=126).contains(&byte) {
            self.put_bytes(&[byte]);
            return;
        }
        self.put_bytes(b"\\x");
        self.put_bytes(&[hex(byte / 16), hex(byte % 16)]);
    }

    fn put_out(&mut self, bytes: &[u8])
        requires empty { self.old ≡ [] }
        requires within { length bytes.now ≤ 1048576 }
        ensures { self.new ≡ out_line bytes.now }
    {
        self.put_bytes(b"out ");
        for byte in bytes {
            self.put_shown(*byte);
        }
        self.put_bytes(b"\n");
    }
}

// The text of a name; none where it has none.
fn text_named(names: &Names, name: u32) -> &[u8]
    ensures { result.now ≡ text_named names.now name }
{
    if name == 0 || name as usize > names.len() {
        return b"";
    }
    names.text(Name(name))
}

// The name of the argument or local at a number from 0, arguments first; none past the last.
fn local_name(body: &Body, k: usize) -> Option<u32>
    ensures { result ≡ slice_get (local_names body.now) k }
{
    let arguments = body.arguments.as_slice();
    if k < arguments.len() {
        return Some(arguments[k]);
    }
    match body.locals.as_slice().get(k - arguments.len()) {
        Some(local) => Some(local.name),
        None => None,
    }
}

// The place of a node of a body.
pub(crate) fn place_at(body: &Body, node: u32) -> Place
    ensures { result ≡ place_at body.now node }
{
    match body.places.get(node as usize) {
        Some(place) => place,
        None => Place {
            edit: 0,
            line: 0,
            column: 0,
        },
    }
}

// A hexadecimal digit.
fn hex(digit: u8) -> u8
    requires { digit < 16 }
    ensures { result ≡ hex digit }
{
    if digit < 10 {
        b'0' + digit
    } else {
        b'a' + (digit - 10)
    }
}

// The name of an error.
fn error_text(error: ErrorName) -> &'static [u8]
    ensures text { result.now ≡ error_text error }
    ensures short { length result.now ≤ 40 }
{
    match error {
        ErrorName::BadType => b"badTypeError",
        ErrorName::Overflow => b"overflowError",
        ErrorName::DivisionByZero => b"divisionByZeroError",
        ErrorName::BadIndex => b"badIndexError",
        ErrorName::BadSize => b"badSizeError",
        ErrorName::PrimitiveNotDefined => b"primitiveNotDefined",
        ErrorName::NotUnderstood => b"notUnderstood",
        ErrorName::Ambiguous => b"ambiguous",
        ErrorName::NonLifoBlock => b"nonLifoBlock",
        ErrorName::StackOverflow => b"stackOverflow",
        ErrorName::StoreFull => b"storeFull",
    }
}
