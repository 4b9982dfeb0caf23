// Lists of nodes, of places, of names, of pairs of map and name, of bytes, and of anything.
ghost use Rattle.std.specs.Prelude.{◌≡◌, ◌++◌, ◌∷◌, [], List, length, slice_get, OnOk, OnErr};

use crate::names::Name;
use crate::nodes::{Node, Place};
use crate::values::Dep;
use std::alloc::{AllocError, Global};
use std::marker::Model;

/// Nodes in evaluation order.
#[derive(Drop)]
pub struct NodeList {
    nodes: Vec<Node>,
}

impl Model for NodeList {
    ghost use Rattle.std.specs.Prelude.{List};
    ghost use Rattle.self_terms.specs.declared.nodes.Node.{Node};

    ghost Value = { List Node };

    ghost view = { λ l. l.nodes.items };
}

impl NodeList {
    /// No nodes. Takes no memory.
    pub fn open(alloc: Global) -> NodeList
        ensures { result ≡ [] }
    {
        NodeList {
            nodes: Vec::new(alloc),
        }
    }

    /// One node more at the end; after want of memory the list is as it was.
    pub fn push(&mut self, node: Node) -> Result<(), AllocError>
        ensures pushed { OnOk result (self.new ≡ self.old ++ node ∷ []) }
        ensures same { OnErr result (self.new ≡ self.old) }
    {
        self.nodes.push(node)?;
        Ok(())
    }

    pub fn len(&self) -> usize
        ensures { result ≡ length self.now }
    {
        self.nodes.len()
    }

    /// The node at a number from 0; none past the last.
    pub fn get(&self, at: usize) -> Option<Node>
        ensures { result ≡ slice_get self.now at }
    {
        self.nodes.get(at).copied()
    }
}

/// The places of the nodes of a list, in the same order.
#[derive(Drop)]
pub struct PlaceList {
    places: Vec<Place>,
}

impl Model for PlaceList {
    ghost use Rattle.std.specs.Prelude.{List};
    ghost use Rattle.self_terms.specs.declared.nodes.Place.{Place};

    ghost Value = { List Place };

    ghost view = { λ l. l.places.items };
}

impl PlaceList {
    /// No places. Takes no memory.
    pub fn open(alloc: Global) -> PlaceList
        ensures { result ≡ [] }
    {
        PlaceList {
            places: Vec::new(alloc),
        }
    }

    /// One place more at the end; after want of memory the list is as it was.
    pub fn push(&mut self, place: Place) -> Result<(), AllocError>
        ensures pushed { OnOk result (self.new ≡ self.old ++ place ∷ []) }
        ensures same { OnErr result (self.new ≡ self.old) }
    {
        self.places.push(place)?;
        Ok(())
    }

    pub fn len(&self) -> usize
        ensures { result ≡ length self.now }
    {
        self.places.len()
    }

    /// The place at a number from 0; none past the last.
    pub fn get(&self, at: usize) -> Option<Place>
        ensures { result ≡ slice_get self.now at }
    {
        self.places.get(at).copied()
    }
}

/// Names in order, as those of a path.
#[derive(Drop)]
pub struct NameList {
    names: Vec<Name>,
}

impl Model for NameList {
    ghost use Rattle.std.specs.Prelude.{List};
    ghost use Rattle.self_terms.specs.declared.names.Name.{Name};

    ghost Value = { List Name };

    ghost view = { λ l. l.names.items };
}

impl NameList {
    /// No names. Takes no memory.
    pub fn open(alloc: Global) -> NameList
        ensures { result ≡ [] }
    {
        NameList {
            names: Vec::new(alloc),
        }
    }

    /// One name more at the end; after want of memory the list is as it was.
    pub fn push(&mut self, name: Name) -> Result<(), AllocError>
        ensures pushed { OnOk result (self.new ≡ self.old ++ name ∷ []) }
        ensures same { OnErr result (self.new ≡ self.old) }
    {
        self.names.push(name)?;
        Ok(())
    }

    pub fn len(&self) -> usize
        ensures { result ≡ length self.now }
    {
        self.names.len()
    }

    /// The name at a number from 0; none past the last.
    pub fn get(&self, at: usize) -> Option<Name>
        ensures { result ≡ slice_get self.now at }
    {
        self.names.get(at).copied()
    }
}

/// The pairs of map and name that a lookup looked at.
#[derive(Drop)]
pub struct Deps {
    deps: Vec<Dep>,
}

impl Model for Deps {
    ghost use Rattle.std.specs.Prelude.{List};
    ghost use Rattle.self_terms.specs.declared.values.Dep.{Dep};

    ghost Value = { List Dep };

    ghost view = { λ l. l.deps.items };
}

impl Deps {
    /// No deps. Takes no memory.
    pub fn open(alloc: Global) -> Deps
        ensures { result ≡ [] }
    {
        Deps {
            deps: Vec::new(alloc),
        }
    }

    /// One dep more at the end; after want of memory the list is as it was.
    pub fn push(&mut self, dep: Dep) -> Result<(), AllocError>
        ensures pushed { OnOk result (self.new ≡ self.old ++ dep ∷ []) }
        ensures same { OnErr result (self.new ≡ self.old) }
    {
        self.deps.push(dep)?;
        Ok(())
    }

    pub fn len(&self) -> usize
        ensures { result ≡ length self.now }
    {
        self.deps.len()
    }

    /// The dep at a number from 0; none past the last.
    pub fn get(&self, at: usize) -> Option<Dep>
        ensures { result ≡ slice_get self.now at }
    {
        self.deps.get(at).copied()
    }
}

/// Bytes of a text.
#[derive(Drop)]
pub struct ByteList {
    bytes: Vec<u8>,
}

impl Model for ByteList {
    ghost use Rattle.std.specs.Prelude.{List, ℕ};

    ghost Value = { List ℕ };

    ghost view = { λ l. l.bytes.items };
}

impl ByteList {
    /// No bytes. Takes no memory.
    pub fn open(alloc: Global) -> ByteList
        ensures { result ≡ [] }
    {
        ByteList {
            bytes: Vec::new(alloc),
        }
    }

    /// One byte more at the end; after want of memory the list is as it was.
    pub fn push(&mut self, byte: u8) -> Result<(), AllocError>
        ensures pushed { OnOk result (self.new ≡ self.old ++ byte ∷ []) }
        ensures same { OnErr result (self.new ≡ self.old) }
    {
        self.bytes.push(byte)?;
        Ok(())
    }

    pub fn as_slice(&self) -> &[u8]
        ensures { result.now ≡ self.now }
    {
        self.bytes.as_slice()
    }
}

/// A list that grows at its end.
#[derive(Drop)]
pub struct Row<T> {
    items: Vec<T>,
}

impl<T> Model for Row<T> {
    ghost use Rattle.std.specs.Prelude.{List};
    ghost use Rattle.std.specs.Coded.{coded_list};

    ghost Value = { List T };

    ghost coded = { coded_list T.code };

    ghost view = { λ r. r.items.items };
}

impl<T> Row<T> {
    /// A list without items. Takes no memory.
    pub fn open(alloc: Global) -> Row<T>
        ensures { result ≡ [] }
    {
        Row {
            items: Vec::new(alloc),
        }
    }

    /// The items in their order.
    pub fn as_slice(&self) -> &[T]
        ensures { result.now ≡ self.now }
    {
        self.items.as_slice()
    }
}

impl<T: Drop> Row<T> {
    /// One item more at the end.
    pub fn push(&mut self, item: T) -> Result<(), AllocError>
        ensures { OnOk result (self.new ≡ self.old ++ item ∷ []) }
    {
        self.items.push(item)?;
        Ok(())
    }
}
