// A worked text of an edit, read and told: each number was counted by hand.
use crate::{InitialTold, slot_text_of};
use self_reader::read_slot;
use self_terms::{BodyId, Names, Node};

#[test]
fn a_worked_slot_is_told(rt: HostRuntime) {
    let text = "f = ( | a = 'hi'. b <- o y. c | [ b ] value. a )".as_bytes();
    let mut names = Names::open(rt.alloc()).expect(&rt, "room");
    assert!(rt; text.len() < 1000);
    assert!(rt; names.len() < 1000);
    let Ok(slot) = read_slot(rt.alloc(), text, 1, &mut names) else {
        panic!(rt; "the text is an edit's");
    };
    assert!(rt; names.len() < 1000);
    let told = slot_text_of(rt.alloc(), text, &slot, &mut names).expect(&rt, "room");
    assert!(rt; told.name() == 3);
    assert!(rt; told.size() == 11);
    assert!(rt; told.strings().len() == 1);
    assert!(rt; told.strings()[0].as_slice() == "hi".as_bytes());
    assert!(rt; told.bodies() == 2);
    let (body, held) = told.body(1);
    assert!(rt; body.name == Some(3));
    assert!(rt; body.outer == None);
    assert!(rt; body.nodes.get(0) == Some(Node::BlockLit(BodyId(2))));
    assert!(rt; body.nodes.get(3) == Some(Node::Read { up: 0, slot: 0 }));
    assert!(rt; held.len() == 3);
    assert!(rt; matches!(&held[0], InitialTold::String(0)));
    assert!(rt; matches!(&held[1], InitialTold::Path(_)));
    assert!(rt; matches!(&held[2], InitialTold::Nothing));
    let (block, none) = told.body(2);
    assert!(rt; block.outer == Some(1));
    assert!(rt; block.nodes.get(0) == Some(Node::Read { up: 1, slot: 1 }));
    assert!(rt; none.len() == 0);
}
