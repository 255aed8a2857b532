use gtm_data::{DataEnd, from_json};
use serde_json::Value;
use std::test::Fail;

#[derive(Clone, Copy, Debug, PartialEq)]
enum Kind {
    NotWhole,
    TooDeep,
}

// A JSON text that is no data, the kind of its fault, and the JSON pointer to it.
struct Fault {
    source: &'static str,
    kind: Kind,
    path: &'static str,
}

const FAULTS: &[Fault] = &[
    Fault {
        source: "1e2",
        kind: Kind::NotWhole,
        path: "",
    },
    Fault {
        source: "[9007199254740992]",
        kind: Kind::NotWhole,
        path: "/0",
    },
    Fault {
        source: "[-9007199254740991,-9007199254740992]",
        kind: Kind::NotWhole,
        path: "/1",
    },
    Fault {
        source: "{\"a\":[1,{\"x/y~\":[0,1.5]}]}",
        kind: Kind::NotWhole,
        path: "/a/1/x~1y~0/1",
    },
    Fault {
        source: "{\"\":{\"~1\":-0}}",
        kind: Kind::NotWhole,
        path: "//~01",
    },
    Fault {
        source: "{\"b\":1.5,\"a\":[2.5]}",
        kind: Kind::NotWhole,
        path: "/a/0",
    },
    Fault {
        source: "[[[[[[[[[[[[[[[[[[[[[[[[[[[[[[[[[[[[[[[[[[[[[[[[[[[[[[[[[[[[[[[[[]]]]]]]]]]]]]]]]]]]]]]]]]]]]]]]]]]]]]]]]]]]]]]]]]]]]]]]]]]]]]]]]]",
        kind: Kind::TooDeep,
        path: "/0/0/0/0/0/0/0/0/0/0/0/0/0/0/0/0/0/0/0/0/0/0/0/0/0/0/0/0/0/0/0/0/0/0/0/0/0/0/0/0/0/0/0/0/0/0/0/0/0/0/0/0/0/0/0/0/0/0/0/0/0/0/0/0",
    },
    Fault {
        source: "{\"a\":{\"a\":{\"a\":{\"a\":{\"a\":{\"a\":{\"a\":{\"a\":{\"a\":{\"a\":{\"a\":{\"a\":{\"a\":{\"a\":{\"a\":{\"a\":{\"a\":{\"a\":{\"a\":{\"a\":{\"a\":{\"a\":{\"a\":{\"a\":{\"a\":{\"a\":{\"a\":{\"a\":{\"a\":{\"a\":{\"a\":{\"a\":{\"a\":{\"a\":{\"a\":{\"a\":{\"a\":{\"a\":{\"a\":{\"a\":{\"a\":{\"a\":{\"a\":{\"a\":{\"a\":{\"a\":{\"a\":{\"a\":{\"a\":{\"a\":{\"a\":{\"a\":{\"a\":{\"a\":{\"a\":{\"a\":{\"a\":{\"a\":{\"a\":{\"a\":{\"a\":{\"a\":{\"a\":{\"a\":{\"a\":1}}}}}}}}}}}}}}}}}}}}}}}}}}}}}}}}}}}}}}}}}}}}}}}}}}}}}}}}}}}}}}}}}",
        kind: Kind::TooDeep,
        path: "/a/a/a/a/a/a/a/a/a/a/a/a/a/a/a/a/a/a/a/a/a/a/a/a/a/a/a/a/a/a/a/a/a/a/a/a/a/a/a/a/a/a/a/a/a/a/a/a/a/a/a/a/a/a/a/a/a/a/a/a/a/a/a/a",
    },
    Fault {
        source: "[[[[[[[[[[[[[[[[[[[[[[[[[[[[[[[[[[[[[[[[[[[[[[[[[[[[[[[[[[[[[[[[[]]]]]]]]]]]]]]]]]]]]]]]]]]]]]]]]]]]]]]]]]]]]]]]]]]]]]]]]]]]]]]]],0.5]",
        kind: Kind::NotWhole,
        path: "/1",
    },
];

// The first fault in order of walking is told, and a number before what is too deep.
#[test]
fn paths_of_faults(rt: HostRuntime) -> Result<(), Fail> {
    let alloc = rt.alloc();
    for fault in FAULTS {
        let tree = Value::from_str(alloc, fault.source)?;
        let (kind, path) = match from_json(alloc, &tree) {
            Err(DataEnd::NotWhole { path }) => (Kind::NotWhole, path),
            Err(DataEnd::TooDeep { path }) => (Kind::TooDeep, path),
            Err(DataEnd::OutOfMemory) => return Err(Fail::from(DataEnd::OutOfMemory)),
            Ok(_) => return Err(Fail::new("no fault is told")),
        };
        assert_eq!(rt; kind, fault.kind, "in {}", fault.source);
        assert_eq!(rt; path.as_str(), fault.path, "in {}", fault.source);
    }
    Ok(())
}
