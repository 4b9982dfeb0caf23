// Worlds.
ghost use Rattle.std.specs.Prelude.{◌≡◌, ◌≢◌, ◌++◌, ◌∷◌, ◌+◌, ◌-◌, ◌<◌, ◌≤◌, [], length, map, option_map, slice_get, IfOk, IfErr, OnOk, OnErr, Ok, Err, Some};
ghost use Rattle.self_terms.specs.declared.bodies.Body.{Body};
ghost use Rattle.self_terms.specs.Names.{with_text};
ghost use Rattle.source_model.specs.declared.objects.Thing.TheVariants.{Text};
ghost use Rattle.source_model.specs.Names.{number_of};
ghost use Rattle.world_build.specs.declared.refusals.BuildRefusal.TheVariants.{OutOfMemory};
ghost use Rattle.world_build.specs.Names.{core_names};
ghost use Rattle.world_build.specs.Worlds.{fixed_strings, plain_number, core_in, core_object, cores, world_of, built, method_in, lobby_method};
ghost use Rattle.world_build.specs.Steps.{HasRoom};

use crate::cores::{CORE_NAMES, CoreName};
use crate::items::load_items;
use crate::kinds::kinds_of;
use crate::lexicon::number;
use crate::loading::Loading;
use crate::refusals::BuildRefusal;
use crate::slots::ToldContent;
use crate::telling::{core_of, put_things};
use self_grammar::Item;
use self_terms::{Body, BodyId, BodyList, Name, Names, NodeList, PlaceList, Row};
use source_model::{Bytes, Content, Core, Thing};
use std::alloc::{AllocError, Global};
use std::marker::Model;

// Six names of errors, nineteen of primitives, and one more.
const FIXED_STRINGS: [&str; 26] = [
    "badTypeError",
    "overflowError",
    "divisionByZeroError",
    "badIndexError",
    "badSizeError",
    "primitiveNotDefined",
    "_IntAdd:",
    "_IntSub:",
    "_IntMul:",
    "_IntDiv:",
    "_IntMod:",
    "_IntAnd:",
    "_IntOr:",
    "_IntXor:",
    "_IntLT:",
    "_IntLE:",
    "_IntEQ:",
    "_Eq:",
    "_Clone",
    "_VectorNew",
    "_Size",
    "_At:",
    "_At:Put:",
    "_StringPrint",
    "_IntPrint",
    "undefined",
];

/// A world: names, the objects and strings of a text and behind them the fixed strings, and the bodies of the text's methods
/// and blocks.
#[derive(Drop)]
pub struct World {
    names: Names,
    things: Vec<Thing>,
    objects: u32,
    bodies: BodyList,
    size: u32,
    core: Core,
}

impl Model for World {
    ghost use Rattle.std.specs.Prelude.{◌≤◌, length};
    ghost use Rattle.world_build.specs.Worlds.{World as Shown};

    ghost Value = { Shown };

    ghost view = { λ w. record { names = w.names; things = w.things.items; objects = w.objects; bodies = w.bodies; size = w.size; core = w.core } };

    ghost invariant = { λ w. length w.bodies ≤ 450000000 };
}

impl World {
    /// The names.
    pub fn names(&self) -> &Names
        ensures { result.now ≡ self.now.names }
    {
        &self.names
    }

    /// The name of a text, which has one from now on; after want of memory the world is as it was.
    pub fn name(&mut self, text: &[u8]) -> Result<Name, AllocError>
        requires { length self.old.names < 500000000 }
        ensures number { IfOk result (λ name. name.0 ≡ number_of self.new.names text.now) }
        ensures given { IfOk result (λ name. 0 < name.0) }
        ensures grows { OnOk result (self.new ≡ record self.old { names = with_text self.old.names text.now }) }
        ensures same { OnErr result (self.new ≡ self.old) }
    {
        let number = number(&mut self.names, text)?;
        Ok(Name(number))
    }

    /// How many numbers of objects the text has: those of the lobby, of object literals and of string literals.
    pub fn objects(&self) -> u32
        ensures { result ≡ self.now.objects }
    {
        self.objects
    }

    /// The objects and strings of the text by their numbers from 0, and behind them the fixed strings.
    pub fn things(&self) -> &[Thing]
        ensures { result.now ≡ self.now.things }
    {
        self.things.as_slice()
    }

    /// The core objects.
    pub fn core(&self) -> Core
        ensures { result ≡ self.now.core }
    {
        self.core
    }

    /// How many bodies there are.
    pub fn bodies(&self) -> u32
        ensures { result ≡ length self.now.bodies }
    {
        self.bodies.len() as u32
    }

    /// The slots, the object literals with the lobby, and the nodes of the text, counted together.
    pub fn size(&self) -> u32
        ensures { result ≡ self.now.size }
    {
        self.size
    }

    /// The body of a number, from 1.
    pub fn body(&self, body: BodyId) -> &Body
        requires given { 0 < body.0 }
        requires within { body.0 ≤ length self.now.bodies }
        ensures { slice_get self.now.bodies (body.0 - 1) ≡ Some result.now }
    {
        self.bodies.at(body.0)
    }

    /// The nodes of a body in evaluation order.
    pub fn nodes(&self, body: BodyId) -> &NodeList
        requires given { 0 < body.0 }
        requires within { body.0 ≤ length self.now.bodies }
        ensures { option_map (λ (b : Body). b.nodes) (slice_get self.now.bodies (body.0 - 1)) ≡ Some result.now }
    {
        &self.bodies.at(body.0).nodes
    }

    /// The places of the nodes of a body, in the same order.
    pub fn places(&self, body: BodyId) -> &PlaceList
        requires given { 0 < body.0 }
        requires within { body.0 ≤ length self.now.bodies }
        ensures { option_map (λ (b : Body). b.places) (slice_get self.now.bodies (body.0 - 1)) ≡ Some result.now }
    {
        &self.bodies.at(body.0).places
    }

    /// The body of the lobby's own method slot of a name.
    pub fn lobby_method(&self, name: Name) -> Option<BodyId>
        ensures { result ≡ lobby_method self.now name.0 }
    {
        let slot = match self.things.get(0) {
            Some(Thing::Plain(slots)) => slots.named(name.0),
            _ => None,
        };
        method_in(slot.map(|slot| slot.content))
    }
}

fn method_in(content: Option<Content>) -> Option<BodyId>
    ensures { result ≡ method_in content }
{
    match content {
        Some(Content::Method(body)) => Some(body),
        _ => None,
    }
}

impl Loading {
    // An object's number, where the object has slots.
    fn plain_number(&self, object: Option<u32>) -> Option<u32>
        ensures { result ≡ plain_number self.now.things object }
    {
        let Some(object) = object else {
            return None;
        };
        if self.things.is_plain(object) {
            return Some(object);
        }
        None
    }

    // A core object is what a constant slot of the lobby holds, where that is an object of slots.
    fn core_in(&self, content: Option<ToldContent>) -> Option<u32>
        ensures { result ≡ core_in self.now content }
    {
        match content {
            Some(ToldContent::Constant(value)) => self.plain_number(self.object_in(value)),
            _ => None,
        }
    }

    fn core_object(&self, name: CoreName) -> Option<u32>
        ensures { result ≡ core_object self.now name }
    {
        self.core_in(self.things.own_slot(0, self.names.core(name)))
    }

    // The numbers of the core objects of these names, or the first name without one.
    fn cores(&self, alloc: Global, names: &[CoreName]) -> Result<Row<u32>, BuildRefusal>
        ensures found { IfOk result (λ core. cores self.now names.now ≡ Ok core) }
        ensures refused { IfErr result (λ e. e ≢ OutOfMemory → cores self.now names.now ≡ Err e) }
    {
        let mut core = Row::open(alloc);
        for name in names {
            let Some(object) = self.core_object(*name) else {
                return Err(BuildRefusal::MissingCore(*name));
            };
            core.push(object)?;
        }
        Ok(core)
    }
}

fn add_string(alloc: Global, things: &mut Vec<Thing>, text: &str) -> Result<(), AllocError>
    ensures { OnOk result (things.new.items ≡ things.old.items ++ Text text.now ∷ []) }
{
    things.push(Thing::Text(Bytes::of(text.as_bytes().to_vec(alloc)?)))?;
    Ok(())
}

fn add_strings(alloc: Global, things: &mut Vec<Thing>, texts: &[&str]) -> Result<(), AllocError>
    ensures { OnOk result (things.new.items ≡ things.old.items ++ map Text (map (λ t. t.now) texts.now)) }
{
    for text in texts {
        add_string(alloc, things, text)?;
    }
    Ok(())
}

// The strings that every world has behind those of its text.
fn add_fixed_strings(alloc: Global, things: &mut Vec<Thing>) -> Result<(), AllocError>
    ensures { OnOk result (things.new.items ≡ things.old.items ++ map Text fixed_strings) }
{
    add_strings(alloc, things, &FIXED_STRINGS)?;
    Ok(())
}

// The world of a whole text.
fn finish(alloc: Global, loading: Loading) -> Result<World, BuildRefusal>
    requires { HasRoom loading }
    ensures built { IfOk result (λ w. world_of loading (cores loading core_names) ≡ Ok w) }
    ensures refused { IfErr result (λ e. e ≢ OutOfMemory → world_of loading (cores loading core_names) ≡ Err e) }
{
    let core = match loading.cores(alloc, &CORE_NAMES) {
        Ok(core) => core,
        Err(refusal) => return Err(refusal),
    };
    close_world(alloc, loading, core)
}

fn close_world(alloc: Global, loading: Loading, core: Row<u32>) -> Result<World, BuildRefusal>
    requires { HasRoom loading }
    ensures built { IfOk result (λ w. world_of loading (Ok core) ≡ Ok w) }
    ensures memory { IfErr result (λ e. e ≡ OutOfMemory) }
{
    let Loading {
        names,
        things: told,
        bodies,
        around: _,
        held: _,
        waiting: _,
        size,
    } = loading;
    let core = core_of(core.as_slice());
    let objects = told.len() as u32;
    let mut things = Vec::new(alloc);
    put_things(alloc, core, told.as_slice(), &mut things)?;
    add_fixed_strings(alloc, &mut things)?;
    Ok(World {
        names: names.into_names(),
        things,
        objects,
        bodies,
        size: size as u32,
        core,
    })
}

/// The world of the items of a text of these bytes, with these names, which are those that the items speak of; or the first
/// refusal: those of paths and parents in the order of the text, then a missing core object.
pub fn load(
    alloc: Global,
    bytes: &[u8],
    items: &[Item],
    names: Names,
) -> Result<World, BuildRefusal>
    requires { length names + length items.now < 400000000 }
    ensures built { IfOk result (λ w. built names bytes.now items.now ≡ Ok w) }
    ensures refused { IfErr result (λ e. e ≢ OutOfMemory → built names bytes.now items.now ≡ Err e) }
{
    let mut kinds = kinds_of(alloc, items)?;
    let mut loading = Loading::begin(alloc, names)?;
    match load_items(&mut loading, alloc, bytes, items, &mut kinds) {
        Ok(()) => finish(alloc, loading),
        Err(refusal) => Err(refusal),
    }
}
