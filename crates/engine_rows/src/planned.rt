use engine_forms::PlannedEngines;
use gtm_base::{EngineEnd, Engines};
use std::test::Fail;

#[test]
fn calls_are_refused_at_their_numbers(rt: HostRuntime) -> Result<(), Fail> {
    let alloc = rt.alloc();
    let mut planned = PlannedEngines::new(alloc);
    planned.refuse_at(2)?;
    planned.refuse_at(4)?;
    assert_eq!(rt; planned.finds(alloc, "a", "a"), Ok(true));
    assert!(rt; matches!(planned.address(alloc, "http://b/"), Err(EngineEnd::Refused)));
    assert_eq!(rt; planned.refused(), "http://b/");
    assert!(rt; matches!(planned.address(alloc, "http://b/"), Ok(Some(_))));
    assert_eq!(rt; planned.finds(alloc, "c", "a"), Err(EngineEnd::Refused));
    assert_eq!(rt; planned.refused(), "c");
    assert_eq!(rt; planned.refusals(), 2);
    assert_eq!(rt; planned.finds(alloc, "c", "a"), Ok(false));
    assert_eq!(rt; planned.refusals(), 2);
    Ok(())
}

#[test]
fn what_the_crates_refuse_counts_too(rt: HostRuntime) -> Result<(), Fail> {
    let alloc = rt.alloc();
    let mut planned = PlannedEngines::new(alloc);
    assert_eq!(rt; planned.finds(alloc, "(", "a"), Err(EngineEnd::Refused));
    assert_eq!(rt; planned.refusals(), 1);
    assert_eq!(rt; planned.refused(), "(");
    Ok(())
}
