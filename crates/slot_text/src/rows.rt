// For each body of an edit's text, what its locals hold at first.
ghost use Rattle.std.specs.Prelude.{◌≡◌, [], map, IfOk, OnOk};
ghost use Rattle.slot_text.specs.Telling.{kept_by, given_to, AreRows};

use crate::contents::{InitialTold, Kept};
use crate::lists::Stack;
use self_terms::Row;
use std::alloc::{AllocError, Global};

// One content more in the row of a body.
fn give(rows: &mut Vec<Row<InitialTold>>, kept: Kept) -> Result<(), AllocError>
    ensures { OnOk result (rows.new.items ≡ given_to kept.body kept.initial rows.old.items) }
{
    let Kept { body, initial } = kept;
    if body == 0 {
        return Ok(());
    }
    let at = body as usize - 1;
    if at >= rows.len() {
        return Ok(());
    }
    rows[at].push(initial)?;
    Ok(())
}

// Rows without anything.
fn no_rows(alloc: Global, count: usize) -> Result<Vec<Row<InitialTold>>, AllocError>
    ensures { IfOk result (λ rows. AreRows count [] rows.items) }
{
    let mut rows = Vec::new(alloc);
    for _body in 0..count {
        rows.push(Row::open(alloc))?;
    }
    Ok(rows)
}

// The rows of so many bodies, once it is known what all locals hold.
pub(crate) fn rows_of(
    alloc: Global,
    count: usize,
    kept: Vec<Kept>,
) -> Result<Vec<Row<InitialTold>>, AllocError>
    ensures { IfOk result (λ rows. AreRows count (map kept_by kept.items) rows.items) }
{
    let mut rows = no_rows(alloc, count)?;
    let mut left = Stack::of(kept);
    while let Some(x) = left.pop() {
        give(&mut rows, x)?;
    }
    Ok(rows)
}
