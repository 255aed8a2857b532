use crate::{NONE, run_over};
use std::test::Fail;

const EXPORT: &[u8] = b"{\"exportFormatVersion\":2,\"containerVersion\":{}}";

// A trace, and the closing lines of its run.
struct Merge {
    name: &'static str,
    trace: &'static [u8],
    closing: &'static [u8],
}

const MERGES: &[Merge] = &[
    Merge {
        name: "a shorter List",
        trace: b"{\"push\":{\"a\":[1,2,3]}}\n{\"push\":{\"a\":[9]}}\n",
        closing: b"model {\"a\":[9,2,3]}\nend steps=2 jobs=2 events=0 starts=0 ok=0 fail=0 denied=0 faults=0\n",
    },
    Merge {
        name: "a longer List",
        trace: b"{\"push\":{\"a\":[1]}}\n{\"push\":{\"a\":[5,6,7]}}\n",
        closing: b"model {\"a\":[5,6,7]}\nend steps=2 jobs=2 events=0 starts=0 ok=0 fail=0 denied=0 faults=0\n",
    },
    Merge {
        name: "a Map and a dotted key",
        trace: b"{\"push\":{\"a.b\":1}}\n{\"push\":{\"a\":{\"c\":2}}}\n",
        closing: b"model {\"a\":{\"b\":1,\"c\":2}}\nend steps=2 jobs=2 events=0 starts=0 ok=0 fail=0 denied=0 faults=0\n",
    },
    Merge {
        name: "a List onto a Map",
        trace: b"{\"push\":{\"a\":{\"b\":1}}}\n{\"push\":{\"a\":[1]}}\n",
        closing: b"model {\"a\":[1]}\nend steps=2 jobs=2 events=0 starts=0 ok=0 fail=0 denied=0 faults=0\n",
    },
    Merge {
        name: "a Map onto a List",
        trace: b"{\"push\":{\"a\":[1,2]}}\n{\"push\":{\"a\":{\"b\":1}}}\n",
        closing: b"model {\"a\":{\"b\":1}}\nend steps=2 jobs=2 events=0 starts=0 ok=0 fail=0 denied=0 faults=0\n",
    },
    Merge {
        name: "a text onto a Map",
        trace: b"{\"push\":{\"a\":{\"b\":1}}}\n{\"push\":{\"a\":\"x\"}}\n",
        closing: b"model {\"a\":\"x\"}\nend steps=2 jobs=2 events=0 starts=0 ok=0 fail=0 denied=0 faults=0\n",
    },
    Merge {
        name: "a Map onto a text",
        trace: b"{\"push\":{\"a\":\"x\"}}\n{\"push\":{\"a\":{\"b\":1}}}\n",
        closing: b"model {\"a\":{\"b\":1}}\nend steps=2 jobs=2 events=0 starts=0 ok=0 fail=0 denied=0 faults=0\n",
    },
    Merge {
        name: "a dotted key through a List",
        trace: b"{\"push\":{\"a\":[1,2]}}\n{\"push\":{\"a.0\":9}}\n",
        closing: b"model {\"a\":{\"0\":9}}\nend steps=2 jobs=2 events=0 starts=0 ok=0 fail=0 denied=0 faults=0\n",
    },
    Merge {
        name: "a Map at an index",
        trace: b"{\"push\":{\"a\":[{\"b\":1},2]}}\n{\"push\":{\"a\":[{\"c\":3}]}}\n",
        closing: b"model {\"a\":[{\"b\":1,\"c\":3},2]}\nend steps=2 jobs=2 events=0 starts=0 ok=0 fail=0 denied=0 faults=0\n",
    },
    Merge {
        name: "an empty Map onto a Map",
        trace: b"{\"push\":{\"a\":{\"b\":1}}}\n{\"push\":{\"a\":{}}}\n",
        closing: b"model {\"a\":{\"b\":1}}\nend steps=2 jobs=2 events=0 starts=0 ok=0 fail=0 denied=0 faults=0\n",
    },
    Merge {
        name: "an empty List onto a List",
        trace: b"{\"push\":{\"a\":[1]}}\n{\"push\":{\"a\":[]}}\n",
        closing: b"model {\"a\":[1]}\nend steps=2 jobs=2 events=0 starts=0 ok=0 fail=0 denied=0 faults=0\n",
    },
    Merge {
        name: "an empty Map onto a number",
        trace: b"{\"push\":{\"a\":1}}\n{\"push\":{\"a\":{}}}\n",
        closing: b"model {\"a\":{}}\nend steps=2 jobs=2 events=0 starts=0 ok=0 fail=0 denied=0 faults=0\n",
    },
    Merge {
        name: "an empty part",
        trace: b"{\"push\":{\"a..b\":1}}\n",
        closing: b"model {\"a\":{\"\":{\"b\":1}}}\nend steps=1 jobs=1 events=0 starts=0 ok=0 fail=0 denied=0 faults=0\n",
    },
    Merge {
        name: "an empty key",
        trace: b"{\"push\":{\"\":1}}\n",
        closing: b"model {\"\":1}\nend steps=1 jobs=1 events=0 starts=0 ok=0 fail=0 denied=0 faults=0\n",
    },
    Merge {
        name: "a present key keeps its place",
        trace: b"{\"push\":{\"z\":1}}\n{\"push\":{\"a\":2,\"z\":3}}\n",
        closing: b"model {\"z\":3,\"a\":2}\nend steps=2 jobs=2 events=0 starts=0 ok=0 fail=0 denied=0 faults=0\n",
    },
    Merge {
        name: "a present key within a Map",
        trace: b"{\"push\":{\"m\":{\"y\":1}}}\n{\"push\":{\"m\":{\"x\":2,\"y\":3}}}\n",
        closing: b"model {\"m\":{\"y\":3,\"x\":2}}\nend steps=2 jobs=2 events=0 starts=0 ok=0 fail=0 denied=0 faults=0\n",
    },
    Merge {
        name: "a key and its dotted form",
        trace: b"{\"push\":{\"a.b\":2,\"a\":{\"b\":1,\"c\":3}}}\n",
        closing: b"model {\"a\":{\"b\":2,\"c\":3}}\nend steps=1 jobs=1 events=0 starts=0 ok=0 fail=0 denied=0 faults=0\n",
    },
    Merge {
        name: "null onto a Map",
        trace: b"{\"push\":{\"a\":{\"b\":1}}}\n{\"push\":{\"a\":null}}\n",
        closing: b"model {\"a\":null}\nend steps=2 jobs=2 events=0 starts=0 ok=0 fail=0 denied=0 faults=0\n",
    },
    Merge {
        name: "Lists within Lists",
        trace: b"{\"push\":{\"a\":[[1,2],[3]]}}\n{\"push\":{\"a\":[[9]]}}\n",
        closing: b"model {\"a\":[[9,2],[3]]}\nend steps=2 jobs=2 events=0 starts=0 ok=0 fail=0 denied=0 faults=0\n",
    },
    Merge {
        name: "a Map onto a number in a List",
        trace: b"{\"push\":{\"a\":[1,2]}}\n{\"push\":{\"a\":[{\"b\":2}]}}\n",
        closing: b"model {\"a\":[{\"b\":2},2]}\nend steps=2 jobs=2 events=0 starts=0 ok=0 fail=0 denied=0 faults=0\n",
    },
    Merge {
        name: "keys in order of their bytes",
        trace: b"{\"push\":{\"\xc3\xa9\":1,\"z\":2,\"Z\":3}}\n",
        closing: b"model {\"Z\":3,\"z\":2,\"\xc3\xa9\":1}\nend steps=1 jobs=1 events=0 starts=0 ok=0 fail=0 denied=0 faults=0\n",
    },
    Merge {
        name: "one part and depth 62",
        trace: b"{\"push\":{\"a\":[[[[[[[[[[[[[[[[[[[[[[[[[[[[[[[[[[[[[[[[[[[[[[[[[[[[[[[[[[[[[[]]]]]]]]]]]]]]]]]]]]]]]]]]]]]]]]]]]]]]]]]]]]]]]]]]]]]]]]]]]]]]}}\n",
        closing: b"model {\"a\":[[[[[[[[[[[[[[[[[[[[[[[[[[[[[[[[[[[[[[[[[[[[[[[[[[[[[[[[[[[[[[]]]]]]]]]]]]]]]]]]]]]]]]]]]]]]]]]]]]]]]]]]]]]]]]]]]]]]]]]]]]]]}\nend steps=1 jobs=1 events=0 starts=0 ok=0 fail=0 denied=0 faults=0\n",
    },
    Merge {
        name: "two parts and depth 62",
        trace: b"{\"push\":{\"a.b\":[[[[[[[[[[[[[[[[[[[[[[[[[[[[[[[[[[[[[[[[[[[[[[[[[[[[[[[[[[[[[[]]]]]]]]]]]]]]]]]]]]]]]]]]]]]]]]]]]]]]]]]]]]]]]]]]]]]]]]]]]]]]}}\n",
        closing: b"model {\"a\":{\"b\":[[[[[[[[[[[[[[[[[[[[[[[[[[[[[[[[[[[[[[[[[[[[[[[[[[[[[[[[[[[[[[]]]]]]]]]]]]]]]]]]]]]]]]]]]]]]]]]]]]]]]]]]]]]]]]]]]]]]]]]]]]]]}}\nend steps=1 jobs=1 events=0 starts=0 ok=0 fail=0 denied=0 faults=0\n",
    },
    Merge {
        name: "three parts and depth 62 are ignored",
        trace: b"{\"push\":{\"a.b.c\":[[[[[[[[[[[[[[[[[[[[[[[[[[[[[[[[[[[[[[[[[[[[[[[[[[[[[[[[[[[[[[]]]]]]]]]]]]]]]]]]]]]]]]]]]]]]]]]]]]]]]]]]]]]]]]]]]]]]]]]]]]]]}}\n",
        closing: b"model {}\nend steps=1 jobs=1 events=0 starts=0 ok=0 fail=0 denied=0 faults=0\n",
    },
    Merge {
        name: "64 parts",
        trace: b"{\"push\":{\"k.k.k.k.k.k.k.k.k.k.k.k.k.k.k.k.k.k.k.k.k.k.k.k.k.k.k.k.k.k.k.k.k.k.k.k.k.k.k.k.k.k.k.k.k.k.k.k.k.k.k.k.k.k.k.k.k.k.k.k.k.k.k.k\":1}}\n",
        closing: b"model {\"k\":{\"k\":{\"k\":{\"k\":{\"k\":{\"k\":{\"k\":{\"k\":{\"k\":{\"k\":{\"k\":{\"k\":{\"k\":{\"k\":{\"k\":{\"k\":{\"k\":{\"k\":{\"k\":{\"k\":{\"k\":{\"k\":{\"k\":{\"k\":{\"k\":{\"k\":{\"k\":{\"k\":{\"k\":{\"k\":{\"k\":{\"k\":{\"k\":{\"k\":{\"k\":{\"k\":{\"k\":{\"k\":{\"k\":{\"k\":{\"k\":{\"k\":{\"k\":{\"k\":{\"k\":{\"k\":{\"k\":{\"k\":{\"k\":{\"k\":{\"k\":{\"k\":{\"k\":{\"k\":{\"k\":{\"k\":{\"k\":{\"k\":{\"k\":{\"k\":{\"k\":{\"k\":{\"k\":{\"k\":1}}}}}}}}}}}}}}}}}}}}}}}}}}}}}}}}}}}}}}}}}}}}}}}}}}}}}}}}}}}}}}}}\nend steps=1 jobs=1 events=0 starts=0 ok=0 fail=0 denied=0 faults=0\n",
    },
    Merge {
        name: "65 parts are ignored",
        trace: b"{\"push\":{\"k.k.k.k.k.k.k.k.k.k.k.k.k.k.k.k.k.k.k.k.k.k.k.k.k.k.k.k.k.k.k.k.k.k.k.k.k.k.k.k.k.k.k.k.k.k.k.k.k.k.k.k.k.k.k.k.k.k.k.k.k.k.k.k.k\":1,\"a\":1}}\n",
        closing: b"model {}\nend steps=1 jobs=1 events=0 starts=0 ok=0 fail=0 denied=0 faults=0\n",
    },
];

#[test]
fn merges(rt: HostRuntime) -> Result<(), Fail> {
    for merge in MERGES {
        let ran = run_over(rt.alloc(), EXPORT, merge.trace, NONE)?;
        assert_eq!(rt; ran.status.code(), 0, "{}", merge.name);
        assert!(rt; ran.out.bytes().ends_with(merge.closing), "{}", merge.name);
    }
    Ok(())
}
