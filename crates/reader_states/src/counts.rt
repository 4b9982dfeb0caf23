// What is counted along a text.
ghost use Rattle.std.specs.Prelude.{◌≡◌, IfOk, OnOk};
ghost use Rattle.reader_states.specs.Turns.{placed, told, entered, listed, owed, forgotten, finished};

use crate::stack::Stack;
use self_grammar::{Breach, Held, Item, Made, Spot};
use std::alloc::{AllocError, Global};
use std::marker::Model;

/// What is counted before a sign, and what it still has to settle: nodes, rules, and slots that end before it.
#[derive(Drop)]
pub struct Tally {
    pub nesting: usize,
    pub pending: usize,
    pub nodes: usize,
    pub around: Stack<Held>,
    pub size: usize,
    pub due: Vec<Made>,
    pub late: Vec<Breach>,
    pub ready: Vec<Item>,
}

impl Model for Tally {
    ghost use Rattle.self_grammar.specs.Counts.{Context};

    ghost Value = { Context };

    ghost view = { λ c. record {
      nesting = c.nesting;
      pending = c.pending;
      nodes = c.nodes;
      around = c.around;
      size = c.size;
      due = c.due.items;
      late = c.late.items;
      ready = c.ready.items;
    } };
}

/// The same on the heap, so that it moves by a word.
#[derive(Drop)]
pub struct Counts {
    tally: Box<Tally>,
}

impl Model for Counts {
    ghost use Rattle.self_grammar.specs.Counts.{Context};

    ghost Value = { Context };

    ghost view = { λ c. c.tally.value };
}

impl Counts {
    pub fn new(alloc: Global, tally: Tally) -> Result<Counts, AllocError>
        ensures { IfOk result (λ c. c ≡ tally) }
    {
        let Ok(tally) = Box::new(alloc, tally) else {
            return Err(AllocError);
        };
        Ok(Counts { tally })
    }

    pub fn into_tally(self) -> Tally
        ensures { result ≡ self }
    {
        Box::into_inner(self.tally)
    }

    /// A slot ends before the sign, with this item; an argument has none.
    pub fn place(&mut self, item: Option<Item>) -> Result<(), AllocError>
        ensures { OnOk result (self.new ≡ placed (listed item) self.old) }
    {
        if let Some(item) = item {
            self.tally.ready.push(item)?;
        }
        Ok(())
    }

    /// At the sign it is known whether this rule is broken.
    pub fn tell(&mut self, breach: Option<Breach>) -> Result<(), AllocError>
        ensures { OnOk result (self.new ≡ told (listed breach) self.old) }
    {
        if let Some(breach) = breach {
            self.tally.late.push(breach)?;
        }
        Ok(())
    }

    /// The sign is the first behind what makes this node.
    pub fn owe(&mut self, node: Made) -> Result<(), AllocError>
        ensures { OnOk result (self.new ≡ owed node self.old) }
    {
        self.tally.due.push(node)?;
        Ok(())
    }

    /// The node that was due isn't made.
    pub fn forget(&mut self)
        ensures { self.new ≡ forgotten self.old }
    {
        self.tally.due.clear();
    }

    /// A keyword message ends before the sign.
    pub fn finish(&mut self)
        ensures { self.new ≡ finished self.old }
    {
        self.tally.nesting = self.tally.nesting.saturating_sub(1);
    }

    /// A body begins before the sign.
    pub fn enter(&mut self) -> Result<(), AllocError>
        ensures { OnOk result (self.new ≡ entered self.old) }
    {
        let held = Held {
            pending: self.tally.pending,
            nodes: self.tally.nodes,
        };
        self.tally.around.push(held)?;
        self.tally.pending = 0;
        self.tally.nodes = 0;
        Ok(())
    }
}

/// What a sign does. Where there are two nodes, or two rules broken, they stand in order.
#[derive(Clone, Copy)]
pub struct Event {
    pub made: Option<Made>,
    pub made_too: Option<Made>,
    pub says: Option<Item>,
    pub counted: Option<Spot>,
    pub opens: bool,
    pub closes: bool,
    pub leaves: bool,
    pub broken: Option<Breach>,
    pub broken_too: Option<Breach>,
    pub next: Option<Spot>,
}

/// What is counted behind a sign, beside what the sign does.
#[derive(Clone, Copy)]
pub enum Post {
    Stay,
    /// A body begins.
    Enter,
    /// The first sign after makes this node.
    Owe(Made),
}
