//! The steps that a node's caller chooses.
use crate::values::{WRITE_12_RIGHT, array, node, word};
use ga_node::{Need, NodeState, Place};
use ga_place::Side;
use std::test::Fail;

/// Node 000 about to post 12 to its right, after `@p @p b! .` and a fetch.
fn about_to_post() -> Result<NodeState, Fail> {
    let mut state = NodeState::loaded(node(0)?, &array::<64>(&WRITE_12_RIGHT)?, 0);
    for _ in 0..6 {
        let _moved = state.try_own();
    }
    Ok(state)
}

#[test]
fn posts(rt: HostRuntime) -> Result<(), Fail> {
    let post = word(0x12)?;
    let mut state = about_to_post()?;
    assert!(rt; state.need() == Need::Post(Side::Right, post) && state.waiting().is_none());
    state.step_posted();
    assert!(rt; state.waiting() == Some(Side::Right) && !state.try_own());
    assert!(rt; state.t().get() == 0 && state.place() == Place::Slot0);
    assert!(rt; state.need() == Need::Check(Side::Right));
    state.step_checked();
    assert!(rt; state.place() == Place::Slot1 && state.waiting().is_none() && state.steps() == 8);
    Ok(())
}
