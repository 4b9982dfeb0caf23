// Activations, as they are shown.
ghost use Rattle.std.specs.Prelude.{◌≡◌, ◌<◌, ◌≤◌, ◌-◌, ◌++◌, ◌∷◌, [], length, slice_get, Some, IfOk};

use crate::lines::ShownValue;
use self_terms::{BodyId, OutOfMemory};
use std::alloc::Global;
use std::marker::Model;

/// How many activations of an activity there may be.
const ACTIVATIONS: usize = 4096;

/// How many values a list has room for.
const VALUES: usize = 79;

/// Values in their order, with room for 79, which is taken when the list is made.
#[derive(Drop)]
pub struct ValueList {
    values: Vec<ShownValue>,
}

impl Model for ValueList {
    ghost use Rattle.std.specs.Prelude.{List, ◌≤◌, vec_len};
    ghost use Rattle.std.specs.Vec.{vec_capacity};
    ghost use Rattle.session_text.specs.declared.lines.ShownValue.{ShownValue};

    ghost Value = { List ShownValue };

    ghost view = { λ l. l.values.items };

    ghost invariant = { λ l. (79 ≤ vec_capacity l.values) × (vec_len l.values ≤ 79) };
}

impl ValueList {
    /// No values.
    pub fn open(alloc: Global) -> Result<ValueList, OutOfMemory>
        ensures { IfOk result (λ l. l ≡ []) }
    {
        Ok(ValueList {
            values: Vec::with_capacity(alloc, VALUES)?,
        })
    }

    /// These values in place of those that it had. Takes no memory.
    pub fn copy_from(&mut self, values: &[ShownValue])
        requires { length values.now ≤ 79 }
        ensures { self.new ≡ values.now }
    {
        self.values.clear();
        if self.values.extend_from_slice(values).is_err() {
            unreachable!();
        }
    }

    /// None of those that it had.
    pub fn clear(&mut self)
        ensures { self.new ≡ [] }
    {
        self.values.clear();
    }

    /// One value more at the end. Takes no memory.
    pub fn push(&mut self, value: ShownValue)
        requires { length self.old < 79 }
        ensures { self.new ≡ self.old ++ value ∷ [] }
    {
        self.values.push_reserved(value);
    }

    /// The values in their order.
    pub fn as_slice(&self) -> &[ShownValue]
        ensures values { result.now ≡ self.now }
        ensures few { length result.now ≤ 79 }
    {
        self.values.as_slice()
    }
}

/// An activation as it is shown: its body; the number of its next node; its receiver; the number of the method holder; the position
/// of its maker, from 1 for the oldest of its activity, or 0 for a method's; arguments and then other locals in their order; and the
/// pending values, the oldest first.
#[derive(Drop)]
pub struct ShownAct {
    pub body: BodyId,
    pub next: u32,
    pub receiver: ShownValue,
    pub holder: u32,
    pub maker: u32,
    pub locals: ValueList,
    pub pending: ValueList,
}

impl ShownAct {
    // An activation of no body, with room for values.
    fn open(alloc: Global) -> Result<ShownAct, OutOfMemory> {
        Ok(ShownAct {
            body: BodyId(0),
            next: 0,
            receiver: ShownValue::Int(0),
            holder: 0,
            maker: 0,
            locals: ValueList::open(alloc)?,
            pending: ValueList::open(alloc)?,
        })
    }

    // Another activation in its place.
    fn fill(
        &mut self,
        body: BodyId,
        next: u32,
        receiver: ShownValue,
        holder: u32,
        maker: u32,
        locals: &[ShownValue],
        pending: &[ShownValue],
    )
        requires locals { length locals.now ≤ 79 }
        requires pending { length pending.now ≤ 79 }
        ensures { self.new ≡ record { body = body; next = next; receiver = receiver; holder = holder; maker = maker; locals = locals.now; pending = pending.now } }
    {
        self.body = body;
        self.next = next;
        self.receiver = receiver;
        self.holder = holder;
        self.maker = maker;
        self.locals.copy_from(locals);
        self.pending.copy_from(pending);
    }
}

/// The activations of an activity, the oldest first, with room for 4,096, which is taken when the list is made.
#[derive(Drop)]
pub struct Shown {
    acts: Vec<ShownAct>,
    count: usize,
}

impl Model for Shown {
    ghost use Rattle.std.specs.Prelude.{◌≡◌, ◌≤◌, List, length, take};
    ghost use Rattle.session_text.specs.declared.acts.ShownAct.{ShownAct};

    ghost Value = { List ShownAct };

    ghost view = { λ s. take s.count s.acts.items };

    ghost invariant = { λ s. (length s.acts.items ≡ 4096) × (s.count ≤ 4096) };
}

impl Shown {
    /// No activations.
    pub fn open(alloc: Global) -> Result<Shown, OutOfMemory>
        ensures { IfOk result (λ s. s ≡ []) }
    {
        let mut acts = Vec::with_capacity(alloc, ACTIVATIONS)?;
        for _act in 0..ACTIVATIONS {
            acts.push(ShownAct::open(alloc)?)?;
        }
        Ok(Shown { acts, count: 0 })
    }

    /// None of those that it had.
    pub fn clear(&mut self)
        ensures { self.new ≡ [] }
    {
        self.count = 0;
    }

    /// How many there are.
    pub fn len(&self) -> usize
        ensures { result ≡ length self.now }
    {
        self.count
    }

    /// The activation at a position, from 1 for the oldest.
    pub fn at(&self, position: u32) -> &ShownAct
        requires given { 0 < position }
        requires within { position ≤ length self.now }
        ensures { slice_get self.now (position - 1) ≡ Some result.now }
    {
        &self.acts[position as usize - 1]
    }

    /// One younger activation. Takes no memory.
    pub fn push(
        &mut self,
        body: BodyId,
        next: u32,
        receiver: ShownValue,
        holder: u32,
        maker: u32,
        locals: &[ShownValue],
        pending: &[ShownValue],
    )
        requires room { length self.old < 4096 }
        requires locals { length locals.now ≤ 79 }
        requires pending { length pending.now ≤ 79 }
        ensures { self.new ≡ self.old ++ (record { body = body; next = next; receiver = receiver; holder = holder; maker = maker; locals = locals.now; pending = pending.now }) ∷ [] }
    {
        self.acts[self.count].fill(body, next, receiver, holder, maker, locals, pending);
        self.count += 1;
    }
}
