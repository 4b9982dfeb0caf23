// What was read so far of an edit's text.
ghost use Rattle.std.specs.Prelude.{◌≡◌, ◌≤◌, false, length, slice_get, IfOk, OnOk};
ghost use Rattle.self_tokens.specs.Texts.{unescaped};
ghost use Rattle.world_build.specs.Loading.{place, between, opened, with_closed, with_string};
ghost use Rattle.world_build.specs.Steps.{HasRoom};
ghost use Rattle.world_build.specs.SlotTexts.{nothing_told, builds};
ghost use Rattle.slot_text.specs.Telling.{shown};

use crate::contents::{InitialTold, Kept};
use crate::lists::Stack;
use self_grammar::Spot;
use self_terms::{Body, BodyList, Names, NodeList, Place, PlaceList, Row};
use self_tokens::unescape;
use source_model::Bytes;
use std::alloc::{AllocError, Global};
use std::mem;

// What was read so far. Bodies have the numbers from 1, strings those from 0. `around` has the bodies that are open, the
// innermost first; `code` the body that closed last; `waiting` the arguments that a slot names for the body that opens next;
// `held` the content that stands before the next slot; `kept` what locals hold, in the order of the text.
#[derive(Drop)]
pub(crate) struct Teller {
    pub names: Names,
    pub strings: Row<Bytes>,
    pub bodies: BodyList,
    pub around: Stack<u32>,
    pub code: Option<u32>,
    pub waiting: Row<u32>,
    pub size: usize,
    pub held: InitialTold,
    pub kept: Vec<Kept>,
    pub name: u32,
}

// A place of the text.
pub(crate) fn place(spot: Spot) -> Place
    ensures { result ≡ place spot }
{
    Place {
        edit: 0,
        line: spot.line,
        column: spot.column,
    }
}

// The bytes of a text from one place up to another.
fn between(bytes: &[u8], start: usize, end: usize) -> &[u8]
    ensures { result.now ≡ between bytes.now start end }
{
    if start <= end && end <= bytes.len() {
        return &bytes[start..end];
    }
    b""
}

// The bytes that the text of a string stands for.
fn string_of(alloc: Global, bytes: &[u8], start: usize, end: usize) -> Result<Bytes, AllocError>
    ensures { IfOk result (λ text. text ≡ unescaped (between bytes.now start end)) }
{
    let Ok(text) = unescape(alloc, between(bytes, start, end)) else {
        return Err(AllocError);
    };
    Ok(Bytes::of(text))
}

impl Teller {
    // Before the first item. Takes no memory.
    pub fn open(alloc: Global, names: Names) -> Teller
        ensures { shown result ≡ nothing_told names }
    {
        Teller {
            names,
            strings: Row::open(alloc),
            bodies: BodyList::open(alloc),
            around: Stack::open(alloc),
            code: None,
            waiting: Row::open(alloc),
            size: 0,
            held: InitialTold::Nothing,
            kept: Vec::new(alloc),
            name: 0,
        }
    }

    // The body that is open innermost.
    pub fn innermost(&self) -> Option<u32>
        ensures { result ≡ slice_get self.now.around 0 }
    {
        self.around.get(0).copied()
    }

    pub fn open_body(&mut self, alloc: Global) -> Result<(), AllocError>
        requires { length self.old.bodies ≤ 450000000 }
        ensures { OnOk result (shown self.new ≡ builds (opened false (shown self.old).loading) (shown self.old)) }
    {
        let number = self.bodies.len() as u32 + 1;
        let body = Body {
            name: None,
            outer: self.innermost(),
            arguments: mem::replace(&mut self.waiting, Row::open(alloc)),
            locals: Row::open(alloc),
            nodes: NodeList::open(alloc),
            places: PlaceList::open(alloc),
        };
        self.bodies.push(body)?;
        self.around.push(number)?;
        Ok(())
    }

    pub fn close(&mut self)
        ensures { shown self.new ≡ builds (with_closed (shown self.old).loading) (shown self.old) }
    {
        match self.around.pop() {
            None => {}
            Some(body) => {
                self.code = Some(body);
                return;
            }
        }
    }

    // A string gets the next number.
    pub fn add_string(
        &mut self,
        alloc: Global,
        bytes: &[u8],
        start: usize,
        end: usize,
    ) -> Result<(), AllocError>
        ensures { OnOk result (shown self.new ≡ builds (with_string bytes.now start end (shown self.old).loading) (shown self.old)) }
    {
        self.strings.push(string_of(alloc, bytes, start, end)?)?;
        Ok(())
    }

    // The number of the string that comes next.
    pub fn next_string(&self) -> u32
        requires { HasRoom (shown self.now).loading }
        ensures { result ≡ length (shown self.now).loading.things }
    {
        self.strings.as_slice().len() as u32
    }
}
