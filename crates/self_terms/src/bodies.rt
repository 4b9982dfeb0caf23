// The bodies of methods and blocks.
ghost use Rattle.std.specs.Prelude.{◌≡◌, ◌++◌, ◌-◌, ◌<◌, ◌≤◌, ◌∷◌, [], length, slice_get, Some, OnOk};
ghost use Rattle.self_terms.specs.Bodies.{changed, add_node, add_argument, add_local, with_name, number_of, sought, entries_of, is_block, body_at};

use crate::lists::{NodeList, PlaceList, Row};
use crate::locals::number_in;
use crate::nodes::{Node, Place};
use crate::values::Datum;
use std::alloc::{AllocError, Global};
use std::marker::Model;

/// A local that is no argument: its name, the name that assigns it where it is assignable, and its initial contents.
#[derive(Clone, Copy, Debug, PartialEq, Eq)]
pub struct Local {
    pub name: u32,
    pub setter: Option<u32>,
    pub initial: Datum,
}

/// A body: the name of its slot, none for a block's; the body around a block's; arguments and other locals, each in their
/// order; nodes in evaluation order, and their places.
#[derive(Drop)]
pub struct Body {
    pub name: Option<u32>,
    pub outer: Option<u32>,
    pub arguments: Row<u32>,
    pub locals: Row<Local>,
    pub nodes: NodeList,
    pub places: PlaceList,
}

/// The bodies by their numbers from 1.
#[derive(Drop)]
pub struct BodyList {
    bodies: Vec<Body>,
}

impl Model for BodyList {
    ghost use Rattle.std.specs.Prelude.{List};
    ghost use Rattle.self_terms.specs.declared.bodies.Body.{Body};

    ghost Value = { List Body };

    ghost view = { λ b. b.bodies.items };
}

// The place of a number that counts from 1.
fn place_of(number: u32) -> usize
    ensures { result ≡ number - 1 }
{
    (number as usize).saturating_sub(1)
}

impl BodyList {
    /// No bodies. Takes no memory.
    pub fn open(alloc: Global) -> BodyList
        ensures { result ≡ [] }
    {
        BodyList {
            bodies: Vec::new(alloc),
        }
    }

    /// How many bodies there are.
    pub fn len(&self) -> usize
        ensures { result ≡ length self.now }
    {
        self.bodies.len()
    }

    /// One body more at the end.
    pub fn push(&mut self, body: Body) -> Result<(), AllocError>
        ensures { OnOk result (self.new ≡ self.old ++ body ∷ []) }
    {
        self.bodies.push(body)?;
        Ok(())
    }

    /// One node more at the end of a body, and its place. A number behind the last changes nothing, here and below.
    pub fn add_node(&mut self, body: u32, node: Node, place: Place) -> Result<(), AllocError>
        ensures { OnOk result (self.new ≡ changed (add_node node place) self.old body) }
    {
        let at = place_of(body);
        if at >= self.bodies.len() {
            return Ok(());
        }
        let body = &mut self.bodies[at];
        body.nodes.push(node)?;
        body.places.push(place)?;
        Ok(())
    }

    /// One argument more, behind those of a body.
    pub fn add_argument(&mut self, body: u32, name: u32) -> Result<(), AllocError>
        ensures { OnOk result (self.new ≡ changed (add_argument name) self.old body) }
    {
        let at = place_of(body);
        if at >= self.bodies.len() {
            return Ok(());
        }
        let body = &mut self.bodies[at];
        body.arguments.push(name)?;
        Ok(())
    }

    /// One local more, behind those of a body.
    pub fn add_local(&mut self, body: u32, local: Local) -> Result<(), AllocError>
        ensures { OnOk result (self.new ≡ changed (add_local local) self.old body) }
    {
        let at = place_of(body);
        if at >= self.bodies.len() {
            return Ok(());
        }
        let body = &mut self.bodies[at];
        body.locals.push(local)?;
        Ok(())
    }

    /// The name of a body's slot.
    pub fn set_name(&mut self, body: u32, name: u32)
        ensures { self.new ≡ changed (with_name name) self.old body }
    {
        let at = place_of(body);
        if at >= self.bodies.len() {
            return;
        }
        let body = &mut self.bodies[at];
        body.name = Some(name);
    }

    /// The body of a number.
    pub fn at(&self, body: u32) -> &Body
        requires given { 0 < body }
        requires within { body ≤ length self.now }
        ensures { slice_get self.now (body - 1) ≡ Some result.now }
    {
        &self.bodies[place_of(body)]
    }

    /// The number of the first local of a body that has a name, or that a name assigns; arguments come first.
    pub fn local(&self, body: u32, assigning: bool, name: u32) -> Option<usize>
        ensures { result ≡ number_of (sought assigning name) 0 (entries_of self.now body) }
    {
        let body = self.bodies.get(place_of(body))?;
        number_in(body, assigning, name)
    }

    /// Whether a body is a block's.
    pub fn is_block(&self, body: Option<u32>) -> bool
        ensures { result ≡ is_block (body_at self.now body) }
    {
        let Some(body) = body else {
            return false;
        };
        match self.bodies.get(place_of(body)) {
            None => false,
            Some(body) => body.outer.is_some(),
        }
    }
}
