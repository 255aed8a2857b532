use crate::giving::{Given, world_of};
use crate::telling::told;
use gtm_base::{OutOfMemory, Text};
use gtm_data::{Data, PageFact};
use page_world::World;
use std::alloc::Global;
use std::test::Fail;

// Globals and functions that were told of, and what is known afterwards.
struct Row {
    name: &'static str,
    given: &'static [Given],
    told: &'static str,
}

const ROWS: &[Row] = &[
    Row {
        name: "a value",
        given: &[Given::Global("a", "5")],
        told: "globals {\"a\":5}",
    },
    Row {
        name: "parents that were missing",
        given: &[Given::Global("a.b.c", "5")],
        told: "globals {\"a\":{\"b\":{\"c\":5}}}",
    },
    Row {
        name: "a value in place of another, which is not merged",
        given: &[
            Given::Global("a", "{\"b\":1,\"c\":2}"),
            Given::Global("z", "0"),
            Given::Global("a", "{\"c\":3}"),
        ],
        told: "globals {\"a\":{\"c\":3},\"z\":0}",
    },
    Row {
        name: "a member beside another",
        given: &[Given::Global("a", "{\"b\":1}"), Given::Global("a.c", "2")],
        told: "globals {\"a\":{\"b\":1,\"c\":2}}",
    },
    Row {
        name: "a path through a number",
        given: &[Given::Global("a", "5"), Given::Global("a.b", "1")],
        told: "globals {\"a\":5}",
    },
    Row {
        name: "a path through a List",
        given: &[Given::Global("a", "[1,2]"), Given::Global("a.0", "9")],
        told: "globals {\"a\":[1,2]}",
    },
    Row {
        name: "a path that is blocked further down makes no parents",
        given: &[
            Given::Global("a", "{\"b\":null}"),
            Given::Global("a.b.c.d", "9"),
        ],
        told: "globals {\"a\":{\"b\":null}}",
    },
    Row {
        name: "an empty part",
        given: &[Given::Global("a..b", "1"), Given::Global("", "2")],
        told: "globals {\"a\":{\"\":{\"b\":1}},\"\":2}",
    },
    Row {
        name: "a function",
        given: &[Given::Returns("a.f", "7")],
        told: "globals {\"a\":{\"f\":function}}; returns a.f 7",
    },
    Row {
        name: "a function told of again",
        given: &[
            Given::Returns("f", "7"),
            Given::Returns("g", "8"),
            Given::Returns("f", "9"),
        ],
        told: "globals {\"f\":function,\"g\":function}; returns f 9; returns g 8",
    },
    Row {
        name: "a function that is no more",
        given: &[Given::Returns("f", "7"), Given::Global("f", "1")],
        told: "globals {\"f\":1}",
    },
    Row {
        name: "functions below a key that is set",
        given: &[
            Given::Returns("a.f", "7"),
            Given::Returns("a.b.g", "8"),
            Given::Returns("ab.f", "9"),
            Given::Global("a", "1"),
        ],
        told: "globals {\"a\":1,\"ab\":{\"f\":function}}; returns ab.f 9",
    },
    Row {
        name: "a function above a key that is blocked",
        given: &[Given::Returns("a", "7"), Given::Global("a.b", "1")],
        told: "globals {\"a\":function}; returns a 7",
    },
    Row {
        name: "a function at a path that is blocked",
        given: &[Given::Global("a", "5"), Given::Returns("a.f", "7")],
        told: "globals {\"a\":5}",
    },
];

#[test]
fn globals_are_known(rt: HostRuntime) -> Result<(), Fail> {
    for row in ROWS {
        let world = world_of(rt.alloc(), row.given)?;
        let told = told(rt.alloc(), &world)?;
        let name = row.name;
        assert_eq!(rt; told.as_str(), row.told, "{name}");
    }
    Ok(())
}

// A path of so many parts, each of them `a`.
fn path_of(alloc: Global, parts: usize) -> Result<Text, OutOfMemory> {
    let mut path = Text::from_str(alloc, "a")?;
    for _ in 1..parts {
        path.push_str(".a")?;
    }
    Ok(path)
}

// A world whose global at a path of so many parts was set.
fn world_with_path(alloc: Global, parts: usize) -> Result<World, OutOfMemory> {
    let mut world = World::new(alloc);
    world.fact(
        alloc,
        PageFact::Global {
            key: path_of(alloc, parts)?,
            value: Data::Null,
        },
    )?;
    Ok(world)
}

#[test]
fn paths_of_over_64_parts_are_blocked(rt: HostRuntime) -> Result<(), Fail> {
    let alloc = rt.alloc();
    let long = world_with_path(alloc, 64)?;
    let longer = world_with_path(alloc, 65)?;
    assert_ne!(rt; told(alloc, &long)?.as_str(), "");
    assert_eq!(rt; told(alloc, &longer)?.as_str(), "");
    Ok(())
}
