use crate::{Failing, NONE, run_over};
use std::test::Fail;

const EXPORT: &[u8] = b"{\"exportFormatVersion\":2,\"containerVersion\":{}}";

// A line of each form that tells a fact of the page, between pushes.
const FACTS: &[u8] = br#"{"push":{"a":1}}
{"page":{"url":"https://shop.example/a?q=1","referrer":"https://find.example/","title":"A"}}
{"cookie":"_ga","values":["GA1.1.1"]}
{"global":"app.user","value":{"id":7}}
{"global":"getUser","returns":null}
{"time":1714557600000}
{"push":{"a":2}}
{"page":{"url":"no address","region":"US-CA"}}
{"page":{}}
"#;

// Steps that tell facts are counted and print nothing.
#[test]
fn facts_print_nothing(rt: HostRuntime) -> Result<(), Fail> {
    let ran = run_over(rt.alloc(), EXPORT, FACTS, NONE)?;
    assert_eq!(rt; ran.status.code(), 0);
    assert_eq!(rt;
        ran.out.bytes(),
        b"message {\"a\":1}\nmessage {\"a\":2}\nmodel {\"a\":2}\nend steps=9 jobs=2 events=0 \
          starts=0 ok=0 fail=0 denied=0 faults=0\n"
            .as_slice()
    );
    Ok(())
}

// Calls of engines that are refused: the number of the call, what was printed by then, and the line
// on standard error.
struct Refusal {
    call: u64,
    prints: &'static [u8],
    err: &'static [u8],
}

const REFUSALS: &[Refusal] = &[
    Refusal {
        call: 1,
        prints: b"message {\"a\":1}\n",
        err: b"gtm_replay: engine refused \"https://shop.example/a?q=1\"\n",
    },
    Refusal {
        call: 2,
        prints: b"message {\"a\":1}\n",
        err: b"gtm_replay: engine refused \"https://find.example/\"\n",
    },
    Refusal {
        call: 3,
        prints: b"message {\"a\":1}\nmessage {\"a\":2}\n",
        err: b"gtm_replay: engine refused \"no address\"\n",
    },
];

// Each call of the engines is refused in turn, and ends the run before the lines of its step. There
// is no fourth call.
#[test]
fn refused_addresses(rt: HostRuntime) -> Result<(), Fail> {
    for refusal in REFUSALS {
        let failing = Failing {
            engines: refusal.call,
            ..NONE
        };
        let ran = run_over(rt.alloc(), EXPORT, FACTS, failing)?;
        assert_eq!(rt; ran.status.code(), 6, "at call {}", refusal.call);
        assert_eq!(rt; ran.out.bytes(), refusal.prints, "at call {}", refusal.call);
        assert_eq!(rt; ran.err.bytes(), refusal.err, "at call {}", refusal.call);
    }
    let ran = run_over(rt.alloc(), EXPORT, FACTS, Failing { engines: 4, ..NONE })?;
    assert_eq!(rt; ran.status.code(), 0);
    Ok(())
}
