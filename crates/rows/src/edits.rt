// The text of an edit, which no command reads yet.

use self_reader::read_slot;
use self_terms::Names;
use std::alloc::Global;
use std::test::Fail;

// How many items the text of an edit says; 0 where it is refused.
fn items_of(alloc: Global, text: &str) -> Result<usize, Fail> {
    let mut names = Names::open(alloc)?;
    let bytes = text.as_bytes();
    if bytes.len() > 1000 || names.len() > 1000 {
        return Ok(0);
    }
    match read_slot(alloc, bytes, 1, &mut names) {
        Ok(slot) => Ok(slot.items.len()),
        Err(_) => Ok(0),
    }
}

// The items are what opens, the integer, the end of the body, what closes, and the slot.
#[test]
fn reads_the_text_of_an_edit(rt: HostRuntime) -> Result<(), Fail> {
    assert_eq!(rt; items_of(rt.alloc(), "f = ( 10 )")?, 5);
    assert_eq!(rt; items_of(rt.alloc(), "f = ( 10 ).")?, 5);
    assert_eq!(rt; items_of(rt.alloc(), "f = 10")?, 0);
    Ok(())
}
