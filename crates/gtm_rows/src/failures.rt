use crate::{Failing, NONE, run_over};
use std::test::Fail;

const EXPORT: &[u8] = b"{\"exportFormatVersion\":2,\"containerVersion\":{}}";

const TRACE: &[u8] = b"{\"push\":{\"a\":[1,2,3]}}\n{\"push\":{\"a\":[9]}}\n";

// The lines of the run, each written by one call.
const LINES: [&[u8]; 4] = [
    b"message {\"a\":[1,2,3]}\n",
    b"message {\"a\":[9]}\n",
    b"model {\"a\":[9,2,3]}\n",
    b"end steps=2 jobs=2 events=0 starts=0 ok=0 fail=0 denied=0 faults=0\n",
];

// Where a write fails, the lines before it were written.
#[test]
fn failing_writes(rt: HostRuntime) -> Result<(), Fail> {
    let mut written = Vec::new(rt.alloc());
    for (at, line) in LINES.iter().enumerate() {
        let failing = Failing {
            out: at as u64 + 1,
            ..NONE
        };
        let ran = run_over(rt.alloc(), EXPORT, TRACE, failing)?;
        assert_eq!(rt; ran.status.code(), 8);
        assert_eq!(rt; ran.out.bytes(), written.as_slice());
        assert_eq!(rt; ran.err.bytes(), b"gtm_replay: cannot write\n".as_slice());
        written.extend_from_slice(line)?;
    }
    let ran = run_over(rt.alloc(), EXPORT, TRACE, Failing { out: 5, ..NONE })?;
    assert_eq!(rt; ran.status.code(), 0);
    assert_eq!(rt; ran.out.bytes(), written.as_slice());
    Ok(())
}

// Each file is opened, read to its end, and asked once more. The steps of the lines that were read
// by then were run.
#[test]
fn failing_reads(rt: HostRuntime) -> Result<(), Fail> {
    for call in 1..7u64 {
        let failing = Failing {
            files: call,
            ..NONE
        };
        let ran = run_over(rt.alloc(), EXPORT, TRACE, failing)?;
        let line = if call < 4 {
            b"gtm_replay: cannot read \"e.json\"\n".as_slice()
        } else {
            b"gtm_replay: cannot read \"t.jsonl\"\n".as_slice()
        };
        assert_eq!(rt; ran.status.code(), 3, "at call {call}");
        assert_eq!(rt; ran.err.bytes(), line, "at call {call}");
        let written = if call < 6 {
            b"".as_slice()
        } else {
            b"message {\"a\":[1,2,3]}\nmessage {\"a\":[9]}\n".as_slice()
        };
        assert_eq!(rt; ran.out.bytes(), written, "at call {call}");
    }
    let ran = run_over(rt.alloc(), EXPORT, TRACE, Failing { files: 7, ..NONE })?;
    assert_eq!(rt; ran.status.code(), 0);
    Ok(())
}

// An export and a trace, the writes of `out` that fail, and the line on standard error.
struct Ending {
    export: &'static [u8],
    trace: &'static [u8],
    files: u64,
    out: u64,
    status: u8,
    err: &'static [u8],
}

const ENDINGS: &[Ending] = &[
    Ending {
        export: EXPORT,
        trace: TRACE,
        files: 0,
        out: 0,
        status: 0,
        err: b"",
    },
    Ending {
        export: EXPORT,
        trace: TRACE,
        files: 5,
        out: 0,
        status: 3,
        err: b"gtm_replay: cannot read \"t.jsonl\"\n",
    },
    Ending {
        export: b"{}",
        trace: TRACE,
        files: 0,
        out: 0,
        status: 4,
        err: b"gtm_replay: export: rule 5 at \"/exportFormatVersion\"\n",
    },
    Ending {
        export: EXPORT,
        trace: b"{\"push\":{\"a\":1}}\n\nx\n",
        files: 0,
        out: 0,
        status: 5,
        err: b"gtm_replay: trace: line 3 rule 2\n",
    },
    Ending {
        export: EXPORT,
        trace: TRACE,
        files: 0,
        out: 3,
        status: 8,
        err: b"gtm_replay: cannot write\n",
    },
];

// A failure of standard error changes neither the status nor what was printed.
#[test]
fn failing_reports(rt: HostRuntime) -> Result<(), Fail> {
    for ending in ENDINGS {
        let failing = Failing {
            files: ending.files,
            out: ending.out,
            ..NONE
        };
        let ran = run_over(rt.alloc(), ending.export, ending.trace, failing)?;
        assert_eq!(rt; ran.status.code(), ending.status);
        assert_eq!(rt; ran.err.bytes(), ending.err);
        let silent = run_over(
            rt.alloc(),
            ending.export,
            ending.trace,
            Failing { err: 1, ..failing },
        )?;
        assert_eq!(rt; silent.status.code(), ending.status);
        assert_eq!(rt; silent.out.bytes(), ran.out.bytes());
        assert!(rt; silent.err.bytes().is_empty());
    }
    Ok(())
}

// A trace that is read in pieces: the first line is run before the second is read, and a read that
// fails leaves what was run.
#[test]
fn pieces_of_a_trace(rt: HostRuntime) -> Result<(), Fail> {
    let mut trace = Vec::from_slice(rt.alloc(), b"{\"push\":{\"a\":[1,2,3]}}\n")?;
    trace.extend_from_slice(vec![in rt.alloc(); b'\n'; 5_000]?.as_slice())?;
    trace.extend_from_slice(b"{\"push\":{\"a\":[9]}}\n")?;
    let ran = run_over(
        rt.alloc(),
        EXPORT,
        trace.as_slice(),
        Failing { files: 6, ..NONE },
    )?;
    assert_eq!(rt; ran.status.code(), 3);
    assert_eq!(rt; ran.out.bytes(), b"message {\"a\":[1,2,3]}\n".as_slice());
    assert_eq!(rt;
        ran.err.bytes(),
        b"gtm_replay: cannot read \"t.jsonl\"\n".as_slice()
    );
    Ok(())
}
