//! The machine with what its host keeps beside it.
ghost use Rattle.plain_host.specs.Hosted.{host};
ghost use Rattle.std.specs.Prelude.{◌≡◌, ◌<◌, ◌≤◌, ◌+◌, ◌-◌, ◌^◌, length, slice_get, Some};
ghost use Rattle.source_model.specs.Soundness.{body_in};
ghost use Rattle.sparc_store.specs.Words.{word_at, HasWord};
ghost use Rattle.sparc_store.specs.Windows.{CanFlush, flushed};
ghost use Rattle.sparc_machine.specs.State.{IsWhole, stack_of, with_stack};
ghost use Rattle.sparc_machine.specs.Running.{Lawful, Ran};
ghost use Rattle.plain_runs.specs.Host.{point_at};
ghost use Rattle.plain_runs.specs.Course.{with_machine};

use object_maps::Maps;
use plain_runs::Status;
use plain_words::{Point, References};
use self_terms::{Body, BodyId, Node, Place};
use sparc_machine::{Machine, MachineRun};
use sparc_store::Memory;
use std::marker::Model;
use world_build::World;

/// Units stand from here on.
pub(crate) const FIRST_UNIT: u32 = 0x1000_0400;

/// To here the oldest activation of an activity returns.
pub(crate) const ENDING_STUB: u32 = 0x1000_0008;

/// The machine; the maps; the next object's number; the world with its bodies; the words by which units know objects; for each body the address of its
/// unit, 0 where it has none yet; what each word of the units says of its frame; the activities, of which one is the current one; and the
/// sums of steps and of cost up to the last service.
#[derive(Drop)]
pub struct Hosting {
    pub(crate) machine: Machine,
    pub(crate) maps: Maps,
    pub(crate) next: u32,
    pub(crate) world: World,
    pub(crate) references: References,
    pub(crate) entries: Vec<u32>,
    pub(crate) points: Vec<Point>,
    pub(crate) statuses: Vec<Status>,
    pub(crate) current: u32,
    pub(crate) steps: u64,
    pub(crate) cost: u64,
}

impl Model for Hosting {
    ghost use Rattle.std.specs.Prelude.{◌≡◌, ◌≤◌, length, vec_capacity};
    ghost use Rattle.plain_host.specs.Hosted.{Hosted};

    ghost Value = { Hosted };

    ghost view = { λ h. record { machine = h.machine; maps = h.maps; next = h.next; bodies = h.world.bodies; references = h.references; entries = h.entries.items; points = h.points.items; statuses = h.statuses.items; current = h.current; steps = h.steps; cost = h.cost } };

    ghost invariant = { λ h. (length h.entries.items ≡ length h.world.bodies) × (length h.statuses.items ≤ 4) × (4 ≤ vec_capacity h.statuses) };
}

#[tactic(auto, unfolding(crate::specs::Hosted::host))]
impl Hosting {
    /// A law: the machine is whole, each body has an entry, and there are at most four activities.
    pub fn is_whole(&self)
        ensures machine { IsWhole (host self.now).machine }
        ensures entries { length (host self.now).entries ≡ length (host self.now).bodies }
        ensures few { length (host self.now).statuses ≤ 4 }
    {
        self.machine.is_whole();
        let _count = self.entries.len();
    }

    /// The maps of objects by their numbers.
    pub fn maps(&self) -> &Maps
        ensures { result.now ≡ (host self.now).maps }
    {
        &self.maps
    }

    /// Memory.
    pub fn memory(&self) -> &Memory
        ensures { result.now ≡ (host self.now).machine.memory }
    {
        self.machine.memory()
    }

    /// The word at an address of a region that 4 divides.
    pub fn word(&self, at: u32) -> u32
        requires { HasWord at }
        ensures { result ≡ word_at (host self.now).machine.memory at }
    {
        self.machine.load(at)
    }

    /// The register of this number, from 0 to 31, in the frame in view.
    pub fn register(&self, register: u8) -> u32
        requires { register < 32 }
        ensures { result ≡ (host self.now).machine.regs register }
    {
        self.machine.get(register)
    }

    /// The frames of the current activity stand in its stack, that in view too, which goes on being held alone.
    pub fn flush(&mut self)
        requires { CanFlush (stack_of (host self.old).machine) }
        ensures { host self.new ≡ with_machine (host self.old) (with_stack (host self.old).machine (flushed (stack_of (host self.old).machine))) }
    {
        self.machine.flush();
    }

    /// The address of the next instruction.
    pub fn pc(&self) -> u32
        ensures { result ≡ (host self.now).machine.pc }
    {
        self.machine.pc()
    }

    /// What the word at an address says of the frame of an activation that goes on there.
    pub fn point_at(&self, pc: u32) -> Point
        ensures { result ≡ point_at (host self.now) pc }
    {
        match self
            .points
            .get((pc.saturating_sub(FIRST_UNIT) / 4) as usize)
        {
            Some(point) => *point,
            None => Point {
                body: 0,
                node: 0,
                pending: 0,
            },
        }
    }

    /// And what the next instruction says.
    pub fn point(&self) -> Point
        ensures { result ≡ point_at (host self.now) (host self.now).machine.pc }
    {
        self.point_at(self.pc())
    }

    /// How many bodies there are.
    pub fn bodies(&self) -> u32
        ensures { result ≡ length (host self.now).bodies }
    {
        self.world.bodies()
    }

    /// The body of a number, from 1.
    pub fn body(&self, b: u32) -> &Body
        requires given { 0 < b }
        requires within { b ≤ length (host self.now).bodies }
        ensures { result.now ≡ body_in (host self.now).bodies b }
    {
        self.world.body(BodyId(b))
    }

    /// A node of a body, by its number from 0; none past the last.
    pub fn node(&self, b: u32, n: u32) -> Option<Node>
        requires given { 0 < b }
        requires within { b ≤ length (host self.now).bodies }
        ensures { result ≡ slice_get (body_in (host self.now).bodies b).nodes n }
    {
        self.body(b).nodes.get(n as usize)
    }

    /// The place in the text of that node.
    pub fn place(&self, b: u32, n: u32) -> Option<Place>
        requires given { 0 < b }
        requires within { b ≤ length (host self.now).bodies }
        ensures { result ≡ slice_get (body_in (host self.now).bodies b).places n }
    {
        self.body(b).places.get(n as usize)
    }

    /// The address of a body's unit; 0 where it has none yet. None where there is no such body.
    pub fn entry_of(&self, b: u32) -> Option<u32>
        ensures { result ≡ slice_get (host self.now).entries (b - 1) }
    {
        self.entries.get(b.saturating_sub(1) as usize).copied()
    }

    /// How an activity stands; none where there is no activity of that number.
    pub fn status(&self, k: u32) -> Option<Status>
        ensures { result ≡ slice_get (host self.now).statuses k }
    {
        self.statuses.get(k as usize).copied()
    }

    /// How many activities there are.
    pub fn activities(&self) -> u32
        ensures { result ≡ length (host self.now).statuses }
    {
        self.statuses.len() as u32
    }

    /// The current activity.
    pub fn current(&self) -> u32
        ensures { result ≡ (host self.now).current }
    {
        self.current
    }

    /// The sum of the steps.
    pub fn steps(&self) -> u64
        requires { (host self.now).steps < 2 ^ 62 }
        ensures { result ≡ (host self.now).steps + (host self.now).machine.regs 2 }
    {
        self.steps + self.machine.get(2) as u64
    }

    /// The sum of the plain cost.
    pub fn cost(&self) -> u64
        requires { (host self.now).cost < 2 ^ 62 }
        ensures { result ≡ (host self.now).cost + (host self.now).machine.regs 3 }
    {
        self.cost + self.machine.get(3) as u64
    }

    /// The reference to the lobby.
    pub fn lobby(&self) -> u32
        requires { 0 < length (host self.now).references.objects }
        ensures { slice_get (host self.now).references.objects 0 ≡ Some result }
    {
        match self.references.objects.as_slice().get(0) {
            Some(word) => *word,
            None => unreachable!(),
        }
    }

    /// The reference to an object by which units know it, by its number; none past the last.
    pub fn reference(&self, object: u32) -> Option<u32>
        ensures { result ≡ slice_get (host self.now).references.objects object }
    {
        self.references
            .objects
            .as_slice()
            .get(object as usize)
            .copied()
    }

    /// That to `nil`.
    pub fn nil(&self) -> u32
        ensures { result ≡ (host self.now).references.nil }
    {
        self.references.nil
    }

    /// The next object's number.
    pub fn next(&self) -> u32
        ensures { result ≡ (host self.now).next }
    {
        self.next
    }

    /// Does so many instructions, or those before the first trap, at which the machine is left. Nothing changes beside the machine.
    pub fn run(&mut self, most: u64) -> MachineRun
        requires { Lawful most (host self.old).machine }
        ensures ran { Ran most (host self.old).machine (host self.new).machine result }
        ensures same { host self.new ≡ with_machine (host self.old) (host self.new).machine }
    {
        self.machine.run(most)
    }
}
