use crate::{NONE, run_over};
use std::test::Fail;

const EXPORT: &[u8] = b"{\"exportFormatVersion\":2,\"containerVersion\":{}}";

// A trace whose last line but for the model and the counts is told.
struct Command {
    name: &'static str,
    trace: &'static [u8],
    closing: &'static [u8],
}

const COMMANDS: &[Command] = &[
    Command {
        name: "push puts its items behind, in order",
        trace: b"{\"push\":{\"a\":[1]}}\n{\"push\":[\"a.push\",2,[3]]}\n",
        closing: b"command [\"a.push\",2,[3]]\nmodel {\"a\":[1,2,[3]]}\nend steps=2 jobs=2 events=0 starts=0 ok=0 fail=0 denied=0 faults=0\n",
    },
    Command {
        name: "push of nothing",
        trace: b"{\"push\":{\"a\":[1]}}\n{\"push\":[\"a.push\"]}\n",
        closing: b"command [\"a.push\"]\nmodel {\"a\":[1]}\nend steps=2 jobs=2 events=0 starts=0 ok=0 fail=0 denied=0 faults=0\n",
    },
    Command {
        name: "unshift puts its items before, in order",
        trace: b"{\"push\":{\"a\":[1]}}\n{\"push\":[\"a.unshift\",2,3]}\n",
        closing: b"command [\"a.unshift\",2,3]\nmodel {\"a\":[2,3,1]}\nend steps=2 jobs=2 events=0 starts=0 ok=0 fail=0 denied=0 faults=0\n",
    },
    Command {
        name: "pop takes the last item",
        trace: b"{\"push\":{\"a\":[1,2]}}\n{\"push\":[\"a.pop\"]}\n",
        closing: b"command [\"a.pop\"]\nmodel {\"a\":[1]}\nend steps=2 jobs=2 events=0 starts=0 ok=0 fail=0 denied=0 faults=0\n",
    },
    Command {
        name: "pop passes over items",
        trace: b"{\"push\":{\"a\":[1,2]}}\n{\"push\":[\"a.pop\",7,8]}\n",
        closing: b"command [\"a.pop\",7,8]\nmodel {\"a\":[1]}\nend steps=2 jobs=2 events=0 starts=0 ok=0 fail=0 denied=0 faults=0\n",
    },
    Command {
        name: "shift takes the first item",
        trace: b"{\"push\":{\"a\":[1,2]}}\n{\"push\":[\"a.shift\"]}\n",
        closing: b"command [\"a.shift\"]\nmodel {\"a\":[2]}\nend steps=2 jobs=2 events=0 starts=0 ok=0 fail=0 denied=0 faults=0\n",
    },
    Command {
        name: "reverse",
        trace: b"{\"push\":{\"a\":[1,2,3]}}\n{\"push\":[\"a.reverse\"]}\n",
        closing: b"command [\"a.reverse\"]\nmodel {\"a\":[3,2,1]}\nend steps=2 jobs=2 events=0 starts=0 ok=0 fail=0 denied=0 faults=0\n",
    },
    Command {
        name: "pop of an empty List",
        trace: b"{\"push\":{\"a\":[]}}\n{\"push\":[\"a.pop\"]}\n",
        closing: b"command [\"a.pop\"]\nmodel {\"a\":[]}\nend steps=2 jobs=2 events=0 starts=0 ok=0 fail=0 denied=0 faults=0\n",
    },
    Command {
        name: "shift of an empty List",
        trace: b"{\"push\":{\"a\":[]}}\n{\"push\":[\"a.shift\"]}\n",
        closing: b"command [\"a.shift\"]\nmodel {\"a\":[]}\nend steps=2 jobs=2 events=0 starts=0 ok=0 fail=0 denied=0 faults=0\n",
    },
    Command {
        name: "a path of two keys",
        trace: b"{\"push\":{\"a\":{\"b\":[1]}}}\n{\"push\":[\"a.b.push\",2]}\n",
        closing: b"command [\"a.b.push\",2]\nmodel {\"a\":{\"b\":[1,2]}}\nend steps=2 jobs=2 events=0 starts=0 ok=0 fail=0 denied=0 faults=0\n",
    },
    Command {
        name: "a path through a List",
        trace: b"{\"push\":{\"a\":[[1],{\"c\":[2]}]}}\n{\"push\":[\"a.1.c.push\",3]}\n",
        closing: b"command [\"a.1.c.push\",3]\nmodel {\"a\":[[1],{\"c\":[2,3]}]}\nend steps=2 jobs=2 events=0 starts=0 ok=0 fail=0 denied=0 faults=0\n",
    },
    Command {
        name: "an index with a zero before it",
        trace: b"{\"push\":{\"a\":[[1],[2]]}}\n{\"push\":[\"a.01.push\",3]}\n",
        closing: b"command [\"a.01.push\",3] ignored\nmodel {\"a\":[[1],[2]]}\nend steps=2 jobs=2 events=0 starts=0 ok=0 fail=0 denied=0 faults=0\n",
    },
    Command {
        name: "an index past the end",
        trace: b"{\"push\":{\"a\":[[1]]}}\n{\"push\":[\"a.1.push\",3]}\n",
        closing: b"command [\"a.1.push\",3] ignored\nmodel {\"a\":[[1]]}\nend steps=2 jobs=2 events=0 starts=0 ok=0 fail=0 denied=0 faults=0\n",
    },
    Command {
        name: "an empty part",
        trace: b"{\"push\":{\"\":[1]}}\n{\"push\":[\".push\",2]}\n",
        closing: b"command [\".push\",2]\nmodel {\"\":[1,2]}\nend steps=2 jobs=2 events=0 starts=0 ok=0 fail=0 denied=0 faults=0\n",
    },
    Command {
        name: "every other path stays",
        trace: b"{\"push\":{\"x\":1,\"a\":[1],\"z\":{\"a\":[9]}}}\n{\"push\":[\"a.push\",2]}\n",
        closing: b"command [\"a.push\",2]\nmodel {\"a\":[1,2],\"x\":1,\"z\":{\"a\":[9]}}\nend steps=2 jobs=2 events=0 starts=0 ok=0 fail=0 denied=0 faults=0\n",
    },
    Command {
        name: "no text first",
        trace: b"{\"push\":{\"a\":[1]}}\n{\"push\":[5,1]}\n",
        closing: b"command [5,1] ignored\nmodel {\"a\":[1]}\nend steps=2 jobs=2 events=0 starts=0 ok=0 fail=0 denied=0 faults=0\n",
    },
    Command {
        name: "no item at all",
        trace: b"{\"push\":{\"a\":[1]}}\n{\"push\":[]}\n",
        closing: b"command [] ignored\nmodel {\"a\":[1]}\nend steps=2 jobs=2 events=0 starts=0 ok=0 fail=0 denied=0 faults=0\n",
    },
    Command {
        name: "no List there",
        trace: b"{\"push\":{\"a\":{\"b\":1}}}\n{\"push\":[\"a.push\",4]}\n",
        closing: b"command [\"a.push\",4] ignored\nmodel {\"a\":{\"b\":1}}\nend steps=2 jobs=2 events=0 starts=0 ok=0 fail=0 denied=0 faults=0\n",
    },
    Command {
        name: "nothing there",
        trace: b"{\"push\":{\"a\":1}}\n{\"push\":[\"b.push\",1]}\n",
        closing: b"command [\"b.push\",1] ignored\nmodel {\"a\":1}\nend steps=2 jobs=2 events=0 starts=0 ok=0 fail=0 denied=0 faults=0\n",
    },
    Command {
        name: "no path",
        trace: b"{\"push\":{\"a\":[1]}}\n{\"push\":[\"push\",1]}\n",
        closing: b"command [\"push\",1] ignored\nmodel {\"a\":[1]}\nend steps=2 jobs=2 events=0 starts=0 ok=0 fail=0 denied=0 faults=0\n",
    },
    Command {
        name: "a method that is none of these",
        trace: b"{\"push\":{\"a\":[1]}}\n{\"push\":[\"a.splice\",0,1]}\n",
        closing: b"command [\"a.splice\",0,1] ignored\nmodel {\"a\":[1]}\nend steps=2 jobs=2 events=0 starts=0 ok=0 fail=0 denied=0 faults=0\n",
    },
    Command {
        name: "a method in another case",
        trace: b"{\"push\":{\"a\":[1]}}\n{\"push\":[\"a.Push\",1]}\n",
        closing: b"command [\"a.Push\",1] ignored\nmodel {\"a\":[1]}\nend steps=2 jobs=2 events=0 starts=0 ok=0 fail=0 denied=0 faults=0\n",
    },
    Command {
        name: "one part and an item of depth 62",
        trace: b"{\"push\":{\"a\":[]}}\n{\"push\":[\"a.push\",[[[[[[[[[[[[[[[[[[[[[[[[[[[[[[[[[[[[[[[[[[[[[[[[[[[[[[[[[[[[[[]]]]]]]]]]]]]]]]]]]]]]]]]]]]]]]]]]]]]]]]]]]]]]]]]]]]]]]]]]]]]]]}\n",
        closing: b"command [\"a.push\",[[[[[[[[[[[[[[[[[[[[[[[[[[[[[[[[[[[[[[[[[[[[[[[[[[[[[[[[[[[[[[]]]]]]]]]]]]]]]]]]]]]]]]]]]]]]]]]]]]]]]]]]]]]]]]]]]]]]]]]]]]]]]\nmodel {\"a\":[[[[[[[[[[[[[[[[[[[[[[[[[[[[[[[[[[[[[[[[[[[[[[[[[[[[[[[[[[[[[[[]]]]]]]]]]]]]]]]]]]]]]]]]]]]]]]]]]]]]]]]]]]]]]]]]]]]]]]]]]]]]]]}\nend steps=2 jobs=2 events=0 starts=0 ok=0 fail=0 denied=0 faults=0\n",
    },
    Command {
        name: "two parts and an item of depth 62",
        trace: b"{\"push\":{\"a\":{\"b\":[]}}}\n{\"push\":[\"a.b.push\",[[[[[[[[[[[[[[[[[[[[[[[[[[[[[[[[[[[[[[[[[[[[[[[[[[[[[[[[[[[[[[]]]]]]]]]]]]]]]]]]]]]]]]]]]]]]]]]]]]]]]]]]]]]]]]]]]]]]]]]]]]]]]}\n",
        closing: b"command [\"a.b.push\",[[[[[[[[[[[[[[[[[[[[[[[[[[[[[[[[[[[[[[[[[[[[[[[[[[[[[[[[[[[[[[]]]]]]]]]]]]]]]]]]]]]]]]]]]]]]]]]]]]]]]]]]]]]]]]]]]]]]]]]]]]]]] ignored\nmodel {\"a\":{\"b\":[]}}\nend steps=2 jobs=2 events=0 starts=0 ok=0 fail=0 denied=0 faults=0\n",
    },
    Command {
        name: "pop looks at no depth",
        trace: b"{\"push\":{\"a\":{\"b\":[1]}}}\n{\"push\":[\"a.b.pop\",[[[[[[[[[[[[[[[[[[[[[[[[[[[[[[[[[[[[[[[[[[[[[[[[[[[[[[[[[[[[[[]]]]]]]]]]]]]]]]]]]]]]]]]]]]]]]]]]]]]]]]]]]]]]]]]]]]]]]]]]]]]]]}\n",
        closing: b"command [\"a.b.pop\",[[[[[[[[[[[[[[[[[[[[[[[[[[[[[[[[[[[[[[[[[[[[[[[[[[[[[[[[[[[[[[]]]]]]]]]]]]]]]]]]]]]]]]]]]]]]]]]]]]]]]]]]]]]]]]]]]]]]]]]]]]]]]\nmodel {\"a\":{\"b\":[]}}\nend steps=2 jobs=2 events=0 starts=0 ok=0 fail=0 denied=0 faults=0\n",
    },
    Command {
        name: "what was added is merged with",
        trace: b"{\"push\":{\"a\":[]}}\n{\"push\":[\"a.push\",{\"b\":1}]}\n{\"push\":{\"a\":[{\"c\":2}]}}\n",
        closing: b"message {\"a\":[{\"c\":2}]}\nmodel {\"a\":[{\"b\":1,\"c\":2}]}\nend steps=3 jobs=3 events=0 starts=0 ok=0 fail=0 denied=0 faults=0\n",
    },
];

#[test]
fn commands(rt: HostRuntime) -> Result<(), Fail> {
    for command in COMMANDS {
        let ran = run_over(rt.alloc(), EXPORT, command.trace, NONE)?;
        assert_eq!(rt; ran.status.code(), 0, "{}", command.name);
        assert!(rt;
            ran.out.bytes().ends_with(command.closing),
            "{}",
            command.name
        );
    }
    Ok(())
}
