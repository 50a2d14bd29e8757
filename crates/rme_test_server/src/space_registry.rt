//! The registry of open spaces.

use rme_session_spaces::SpaceRegistry;
use std::test::Fail;

#[test]
fn there_is_no_task_at_the_end(rt: HostRuntime) -> Result<(), Fail> {
    let registry: SpaceRegistry<u32> = SpaceRegistry::new(rt.alloc());
    registry.end(&rt);
    assert!(rt; registry.next_task(&rt).is_none());
    Ok(())
}
