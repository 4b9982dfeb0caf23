// What was read so far of a text.
ghost use Rattle.std.specs.Prelude.{◌≡◌, ◌≢◌, ◌<◌, length, IfOk, IfErr, OnOk, Ok, Err};
ghost use Rattle.world_build.specs.declared.refusals.BuildRefusal.TheVariants.{OutOfMemory};
ghost use Rattle.world_build.specs.Loading.{begun, place, data_of, root, plain_object, object_in, data_at, further, followed, innermost, body_in, with_object, with_body, with_closed, between, with_string};
ghost use Rattle.self_tokens.specs.Texts.{unescaped};
ghost use Rattle.world_build.specs.Steps.{HasRoom};

use crate::cores::CoreName;
use crate::lexicon::Lexicon;
use crate::lists::Stack;
use crate::refusals::BuildRefusal;
use crate::slots::ToldSlots;
use crate::things::{ToldThing, ToldThings};
use crate::values::{Held, Open};
use self_grammar::Spot;
use self_terms::{Body, BodyList, Datum, Names, NodeList, Place, PlaceList, Row};
use self_tokens::unescape;
use source_model::Bytes;
use std::alloc::{AllocError, Global};
use std::mem;

// What was read so far. Objects have the numbers from 0, the lobby's; bodies those from 1. `around` has what is open, the
// innermost first, `waiting` the arguments that a slot names for the body that opens next.
#[derive(Drop)]
pub(crate) struct Loading {
    pub names: Lexicon,
    pub things: ToldThings,
    pub bodies: BodyList,
    pub around: Stack<Open>,
    pub held: Held,
    pub waiting: Row<u32>,
    pub size: usize,
}

// A place of the world's text.
pub(crate) fn place(spot: Spot) -> Place
    ensures { result ≡ place spot }
{
    Place {
        edit: 0,
        line: spot.line,
        column: spot.column,
    }
}

// What a value is, where it is an object and isn't nil.
fn plain_object(value: Option<Datum>) -> Option<u32>
    ensures { result ≡ plain_object value }
{
    match value {
        None => None,
        Some(Datum::Integer(_)) => None,
        Some(Datum::Object(object)) => Some(object),
        Some(Datum::Nil) => None,
    }
}

// The body that is open innermost, where a body is.
pub(crate) fn body_in(opened: Option<Open>) -> Option<u32>
    ensures { result ≡ body_in opened }
{
    match opened {
        None => None,
        Some(Open::InObject(_)) => None,
        Some(Open::InBody(body)) => Some(body),
    }
}

// The bytes of a text from one place up to another.
fn between(bytes: &[u8], start: usize, end: usize) -> &[u8]
    ensures { result.now ≡ between bytes.now start end }
{
    if start <= end && end <= bytes.len() {
        return &bytes[start..end];
    }
    b""
}

// The bytes that the text of a string stands for.
fn string_of(alloc: Global, bytes: &[u8], start: usize, end: usize) -> Result<Bytes, AllocError>
    ensures { IfOk result (λ text. text ≡ unescaped (between bytes.now start end)) }
{
    let Ok(text) = unescape(alloc, between(bytes, start, end)) else {
        return Err(AllocError);
    };
    Ok(Bytes::of(text))
}

impl Loading {
    // Before the first item: the lobby is open, and counts as an object.
    pub fn begin(alloc: Global, names: Names) -> Result<Loading, AllocError>
        requires { length names < 400000000 }
        ensures { IfOk result (λ loading. loading ≡ begun names) }
    {
        let names = Lexicon::open(names)?;
        let mut things = ToldThings::open(alloc);
        things.push(ToldThing::Plain(ToldSlots::open(alloc)))?;
        let mut around = Stack::open(alloc);
        around.push(Open::InObject(0))?;
        Ok(Loading {
            names,
            things,
            bodies: BodyList::open(alloc),
            around,
            held: Held::Nothing,
            waiting: Row::open(alloc),
            size: 1,
        })
    }

    // What is open innermost.
    pub fn innermost(&self) -> Option<Open>
        ensures { result ≡ innermost self.now.around }
    {
        self.around.get(0).copied()
    }

    // The first name of a path is `lobby`, or names data of the lobby.
    pub fn root(&self, name: u32) -> Option<Datum>
        ensures { result ≡ root self.now name }
    {
        if name == self.names.lobby() {
            return Some(Datum::Object(0));
        }
        self.things.own_data(0, name)
    }

    // What a value is, where it is an object; nil is the lobby's `nil`.
    pub fn object_in(&self, value: Datum) -> Option<u32>
        ensures { result ≡ object_in self.now value }
    {
        match value {
            Datum::Integer(_) => None,
            Datum::Object(object) => Some(object),
            Datum::Nil => { plain_object(self.things.own_data(0, self.names.core(CoreName::Nil))) }
        }
    }

    fn data_at(&self, object: Option<u32>, name: u32) -> Option<Datum>
        ensures { result ≡ data_at self.now object name }
    {
        match object {
            None => None,
            Some(object) => self.things.own_data(object, name),
        }
    }

    // A further name names data of what was reached.
    pub fn further(&self, name: u32) -> Option<Datum>
        ensures { result ≡ further self.now self.now.held name }
    {
        match self.held {
            Held::Nothing => None,
            Held::Data(value) => self.data_at(self.object_in(value), name),
            Held::Code(_) => None,
        }
    }

    pub fn follow(&mut self, spot: Spot, value: Option<Datum>) -> Result<(), BuildRefusal>
        ensures taken { OnOk result (followed self.old spot value ≡ Ok self.new) }
        ensures refused { IfErr result (λ e. e ≢ OutOfMemory → followed self.old spot value ≡ Err e) }
    {
        let Some(value) = value else {
            return Err(BuildRefusal::NoSuchPath(place(spot)));
        };
        self.held = Held::Data(value);
        Ok(())
    }

    pub fn open_object(&mut self, alloc: Global) -> Result<(), AllocError>
        requires { HasRoom self.old }
        ensures { OnOk result (self.new ≡ with_object self.old) }
    {
        let object = self.things.len() as u32;
        self.things.push(ToldThing::Plain(ToldSlots::open(alloc)))?;
        self.around.push(Open::InObject(object))?;
        self.size += 1;
        Ok(())
    }

    pub fn open_body(&mut self, alloc: Global) -> Result<(), AllocError>
        requires { HasRoom self.old }
        ensures { OnOk result (self.new ≡ with_body self.old) }
    {
        let number = self.bodies.len() as u32 + 1;
        let body = Body {
            name: None,
            outer: body_in(self.innermost()),
            arguments: mem::replace(&mut self.waiting, Row::open(alloc)),
            locals: Row::open(alloc),
            nodes: NodeList::open(alloc),
            places: PlaceList::open(alloc),
        };
        self.bodies.push(body)?;
        self.around.push(Open::InBody(number))?;
        Ok(())
    }

    pub fn close(&mut self)
        ensures { self.new ≡ with_closed self.old }
    {
        match self.around.pop() {
            None => {}
            Some(Open::InObject(object)) => {
                self.held = Held::Data(Datum::Object(object));
                return;
            }
            Some(Open::InBody(body)) => {
                self.held = Held::Code(body);
                return;
            }
        }
    }

    // A string gets the next object's number.
    pub fn add_string(
        &mut self,
        alloc: Global,
        bytes: &[u8],
        start: usize,
        end: usize,
    ) -> Result<(), AllocError>
        ensures { OnOk result (self.new ≡ with_string bytes.now start end self.old) }
    {
        self.things
            .push(ToldThing::Text(string_of(alloc, bytes, start, end)?))?;
        Ok(())
    }
}
