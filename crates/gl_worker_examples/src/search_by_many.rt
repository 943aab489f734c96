// Workers of a search are at the gate at the same time.
use crate::flight::free_goal;
use crate::roll::Roll;
use gl_plain::search_one;
use gl_pool::search_many;
use std::test::Fail;

/// The gate lets nobody on until all have come, each number once.
#[test]
fn all_workers_meet_at_the_gate(rt: HostRuntime) -> Result<(), Fail> {
    let goal = free_goal(rt.alloc(), 3)?;
    let alone = search_one(rt.alloc(), &goal)?.best.map(|best| best.total);
    for count in [1, 2, 3, 16] {
        let gate = Roll::new(&rt, rt.alloc(), count)?;
        let found = search_many(&rt, rt.alloc(), &goal, count, &gate)?;
        assert!(rt; gate.all_met(), "{count} workers");
        assert_eq!(rt; found.best.map(|best| best.total), alone);
    }
    Ok(())
}
