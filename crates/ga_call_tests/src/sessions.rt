//! Sessions that a caller begins.
use ga_chip::Chip;
use ga_debug::{Session, begin};
use std::test::Fail;

#[test]
fn sessions_begin(rt: HostRuntime) -> Result<(), Fail> {
    let mut session = Session::new(Chip::reset(rt.alloc())?);
    assert!(rt; session.command(rt.alloc(), "try 000 r")?.as_str() == "waits");
    let (mut session, line) = begin(rt.alloc(), "profile 2\nroute 708,709\nnode 709 .\ngo")?;
    assert!(rt; line == 4);
    assert!(rt; session.command(rt.alloc(), "try 708 r")?.as_str() == "moved");
    Ok(())
}
