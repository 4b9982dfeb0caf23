// What opens, an object or a body, is told where it closes: read once from the end of the items to their beginning.
ghost use Rattle.std.specs.Prelude.{◌≡◌, IfOk, OnOk};
ghost use Rattle.world_build.specs.Kinds.{first_of, but_first, closings_with, openings_with, openings, kind_at, kinds_behind};

use crate::lists::Stack;
use self_grammar::Item;
use std::alloc::{AllocError, Global};

// Whether what opens is an object, for each item that opens something, the first one at the top.
pub(crate) fn kinds_of(alloc: Global, items: &[Item]) -> Result<Stack<bool>, AllocError>
    ensures { IfOk result (λ kinds. kinds ≡ openings items.now) }
{
    let mut closings = Stack::open(alloc);
    let mut kinds = Stack::open(alloc);
    for at in (0..items.len()).rev() {
        add_before(&mut closings, &mut kinds, items[at])?;
    }
    Ok(kinds)
}

// The same with one item more before the others: how what is open there is closed, the innermost first, and what opens.
fn add_before(
    closings: &mut Stack<bool>,
    kinds: &mut Stack<bool>,
    item: Item,
) -> Result<(), AllocError>
    ensures closings { OnOk result (closings.new ≡ closings_with item closings.old) }
    ensures kinds { OnOk result (kinds.new ≡ openings_with item closings.old kinds.old) }
{
    match item {
        Item::Opened(_) => {
            let object = pop_kind(closings);
            kinds.push(object)?;
            Ok(())
        }
        Item::ClosedObject => {
            closings.push(true)?;
            Ok(())
        }
        Item::ClosedBody => {
            closings.push(false)?;
            Ok(())
        }
        _ => Ok(()),
    }
}

fn pop_kind(kinds: &mut Stack<bool>) -> bool
    ensures kind { result ≡ first_of kinds.old }
    ensures rest { kinds.new ≡ but_first kinds.old }
{
    match kinds.pop() {
        None => false,
        Some(kind) => kind,
    }
}

// Whether an item opens an object; what opens stands at the top.
pub(crate) fn next_kind(kinds: &mut Stack<bool>, item: Item) -> bool
    ensures kind { result ≡ kind_at item kinds.old }
    ensures rest { kinds.new ≡ kinds_behind item kinds.old }
{
    match item {
        Item::Opened(_) => pop_kind(kinds),
        _ => false,
    }
}
