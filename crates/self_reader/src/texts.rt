// The reading of a world file, and of the text of an edit.
ghost use Rattle.std.specs.Prelude.{◌≡◌, ◌+◌, ◌*◌, ◌≤◌, length, IfOk, OnOk};
ghost use Rattle.self_tokens.specs.Tokens.{tokens};
ghost use Rattle.self_grammar.specs.Grammar.{World, Edit};
ghost use Rattle.self_grammar.specs.Spelling.{world, edit, items_of};
ghost use Rattle.self_grammar.specs.Refusal.{IsText};
ghost use Rattle.self_signs.specs.Signs.{signs, names_after, Keeps};
ghost use Rattle.self_reader.specs.Texts.{AreRead, IsAnswered, IsRightlyRefused, OnRefusal, known};

use crate::reading::{read_edit_signs, read_world_signs};
use crate::stops::ReadStop;
use self_grammar::{Item, Limits};
use self_signs::signs_of;
use self_terms::Names;
use std::alloc::Global;

/// The limits of every text.
pub const LIMITS: Limits = Limits {
    nesting: 64,
    pending: 64,
    arguments: 5,
    locals: 64,
    body: 1024,
    size: 65536,
};

/// What a world file says: its items in reading order, and the names that they speak of.
#[derive(Drop)]
pub struct WorldTree {
    pub items: Vec<Item>,
    pub names: Names,
}

/// What the text of the edit of this number says, in reading order; its names are those that were lent to the reader.
#[derive(Drop)]
pub struct MethodSlot {
    pub edit: u32,
    pub items: Vec<Item>,
}

/// Reads a world file of at most 1,048,576 bytes: what it says, or what is wrong first at the first place where something
/// is wrong.
pub fn read_world(alloc: Global, bytes: &[u8]) -> Result<WorldTree, ReadStop>
    requires { length bytes.now ≤ 1048576 }
    // What is read is what a world within the limits says, whose signs are those of the bytes.
    ensures found { IfOk result (λ t. AreRead World (world LIMITS) (signs known bytes.now) t.items.items) }
    ensures names { IfOk result (λ t. t.names ≡ names_after known bytes.now (tokens bytes.now)) }
    // Each such world is read, unless memory runs out.
    // At most so many items and names.
    ensures few { IfOk result (λ t. length t.items.items + length t.names ≤ 20000000) }
    ensures only { (w : World) → IsText (world LIMITS) (signs known bytes.now) w → IsAnswered (λ t. t.items.items) result (items_of (world LIMITS w)) }
    // A refusal stands at the first sign at which something is wrong, for what is wrong there first.
    ensures refused { IsRightlyRefused World (world LIMITS) (signs known bytes.now) result }
{
    let mut names = Names::open(alloc)?;
    let signs = signs_of(alloc, bytes, &mut names)?;
    match read_world_signs(alloc, LIMITS, signs.as_slice()) {
        Ok(items) => Ok(WorldTree { items, names }),
        Err(stop) => Err(stop),
    }
}

/// Reads the text of an edit, one slot with a method, of at most 1,048,576 bytes: what it says, or what is wrong first at
/// the first place where something is wrong. The names get those of the text, also where it is refused.
pub fn read_slot(
    alloc: Global,
    bytes: &[u8],
    number: u32,
    names: &mut Names,
) -> Result<MethodSlot, ReadStop>
    requires small { length bytes.now ≤ 1048576 }
    requires room { length names.old + 2 * (length bytes.now + 1) ≤ 500000000 }
    ensures found { IfOk result (λ t. AreRead Edit (edit LIMITS) (signs names.old bytes.now) t.items.items) }
    ensures number { IfOk result (λ t. t.edit ≡ number) }
    ensures names { OnOk result (names.new ≡ names_after names.old bytes.now (tokens bytes.now)) }
    // A text that is refused has given its names too.
    ensures refused_names { OnRefusal result (names.new ≡ names_after names.old bytes.now (tokens bytes.now)) }
    ensures kept { Keeps names.old names.new }
    ensures only { (e : Edit) → IsText (edit LIMITS) (signs names.old bytes.now) e → IsAnswered (λ t. t.items.items) result (items_of (edit LIMITS e)) }
    ensures refused { IsRightlyRefused Edit (edit LIMITS) (signs names.old bytes.now) result }
{
    let signs = signs_of(alloc, bytes, names)?;
    match read_edit_signs(alloc, LIMITS, signs.as_slice()) {
        Ok(items) => Ok(MethodSlot {
            edit: number,
            items,
        }),
        Err(stop) => Err(stop),
    }
}
