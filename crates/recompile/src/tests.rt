//! Boxed advisors in a list: asked, taken out and dropped.
use crate::{Advice, Advisor, Ask, Note, Plain};
use self_terms::{BodyId, MapId};
use std::test::Fail;

// Drops the present advisor and takes the k-th of those left, from 1; 0 takes none. Answers whether there are so many.
fn take(
    left: &mut Vec<Box<dyn Advisor + Drop>>,
    present: &mut Option<Box<dyn Advisor + Drop>>,
    k: usize,
) -> bool {
    if k > left.len() {
        return false;
    }
    *present = if k == 0 {
        None
    } else {
        Some(left.remove(k - 1))
    };
    true
}

#[test]
fn boxed_advisors_are_taken_and_dropped(rt: HostRuntime) -> Result<(), Fail> {
    let unit = Ask::Unit {
        body: BodyId(1),
        map: MapId(0),
        nodes: 7,
    };
    let send = Ask::Send {
        body: BodyId(1),
        node: 3,
        depth: 0,
        maps: 9,
        sure: false,
    };
    let alloc = rt.alloc();
    let mut left: Vec<Box<dyn Advisor + Drop>> = Vec::new(alloc);
    for _count in 0..3 {
        left.push(Box::new(alloc, Plain)?)?;
    }
    let mut present = None;
    assert!(rt; take(&mut left, &mut present, 2));
    assert_eq!(rt; left.len(), 2);
    assert!(rt; present.is_some());
    if let Some(advisor) = &mut present {
        assert_eq!(rt; advisor.ask(&unit), Advice::No);
        advisor.note(&Note::NoRoom { body: BodyId(1) });
        assert_eq!(rt; advisor.ask(&send), Advice::No);
    }
    assert!(rt; !take(&mut left, &mut present, 3));
    assert!(rt; present.is_some());
    assert!(rt; take(&mut left, &mut present, 1));
    assert!(rt; take(&mut left, &mut present, 0));
    assert!(rt; present.is_none());
    assert_eq!(rt; left.len(), 1);
    assert!(rt; left.pop().is_some());
    assert!(rt; left.is_empty());
    Ok(())
}
