use engine_forms::PlannedEngines;
use gtm_base::{MemFiles, MemSink, OutOfMemory};
use gtm_cli::replay;
use slow_files::OneByte;
use std::alloc::Global;
use std::test::Fail;

const EXPORT: &[u8] = b"{\"exportFormatVersion\":2,\"containerVersion\":{}}";

// A line of the trace with its LF, and what its step prints.
struct Line {
    line: &'static [u8],
    prints: &'static [u8],
}

const LINES: &[Line] = &[
    Line {
        line: b"{\"push\":{\"a\":1}}\n",
        prints: b"message {\"a\":1}\n",
    },
    Line {
        line: b"\n",
        prints: b"",
    },
    Line {
        line: b"{\"push\":[\"a.pop\"]}\n",
        prints: b"command [\"a.pop\"] ignored\n",
    },
    Line {
        line: b"{\"push\":{\"event\":\"x\"}}\n",
        prints: b"message {\"event\":\"x\"}\nevent 1 \"x\"\n",
    },
];

const CLOSING: &[u8] =
    b"model {\"a\":1,\"event\":\"x\"}\nend steps=3 jobs=3 events=1 starts=0 ok=0 fail=0 denied=0 faults=0\n";

// What the steps print of all lines whose LF is among the first bytes of the trace.
fn printed(alloc: Global, read: usize) -> Result<Vec<u8>, OutOfMemory> {
    let mut prints = Vec::new(alloc);
    let mut left = read;
    for line in LINES {
        if left < line.line.len() {
            return Ok(prints);
        }
        left -= line.line.len();
        prints.extend_from_slice(line.prints)?;
    }
    Ok(prints)
}

// The status and the output over files that give one byte a read, where this call is to fail.
fn run_slowly(alloc: Global, call: u64) -> Result<(u8, MemSink), OutOfMemory> {
    let mut trace = Vec::new(alloc);
    for line in LINES {
        trace.extend_from_slice(line.line)?;
    }
    let mut files = MemFiles::new(alloc);
    files.add("e.json", EXPORT)?;
    files.add("t.jsonl", trace.as_slice())?;
    files.fail_at(call)?;
    let mut slow = OneByte { files };
    let words = [
        String::from_str(alloc, "run")?,
        String::from_str(alloc, "e.json")?,
        String::from_str(alloc, "t.jsonl")?,
    ];
    let mut out = MemSink::new(alloc);
    let mut err = MemSink::new(alloc);
    let mut engines = PlannedEngines::new(alloc);
    let status = replay(alloc, &words, &mut slow, &mut out, &mut err, &mut engines);
    Ok((status.code(), out))
}

// Each call fails in turn: the openings, the reads of one byte each, and the two that meet an end.
#[test]
fn byte_by_byte(rt: HostRuntime) -> Result<(), Fail> {
    let alloc = rt.alloc();
    let before = EXPORT.len() as u64 + 3;
    let mut calls = before;
    for line in LINES {
        calls = calls.saturating_add(line.line.len() as u64);
    }
    for call in 1..calls.saturating_add(2) {
        let (status, out) = run_slowly(alloc, call)?;
        assert_eq!(rt; status, 3, "at call {call}");
        let read = call.saturating_sub(before.saturating_add(1)) as usize;
        assert_eq!(rt;
            out.bytes(),
            printed(alloc, read)?.as_slice(),
            "at call {call}"
        );
    }
    let (status, out) = run_slowly(alloc, 0)?;
    let mut whole = printed(alloc, calls as usize)?;
    whole.extend_from_slice(CLOSING)?;
    assert_eq!(rt; status, 0);
    assert_eq!(rt; out.bytes(), whole.as_slice());
    Ok(())
}
