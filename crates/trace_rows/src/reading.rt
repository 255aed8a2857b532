ghost use Rattle.std.specs.Prelude.{IsTrue, IsSome, IfOk};

use crate::telling::step_text;
use gtm_base::{FileFailed, Files, MemFiles, OutOfMemory, Text};
use slow_files::OneByte;
use std::alloc::Global;
use std::test::Fail;
use trace_forms::TraceStep;
use trace_reader::{Reader, TraceEnd};

/// The files that hold this trace, with it open; this call of theirs is to fail, counted from 1
/// with that opening.
pub fn opened(alloc: Global, trace: &[u8], failing: Option<u64>) -> Result<MemFiles, Fail>
    ensures { IfOk result (λ files. IsSome files.file) }
{
    let mut files = MemFiles::new(alloc);
    files.add("trace", trace)?;
    if let Some(call) = failing {
        files.fail_at(call)?;
    }
    match files.open("trace") {
        Ok(()) => Ok(files),
        Err(FileFailed) => Err("the trace is not there".into()),
    }
}

/// The steps that a reader hands out, one a line, and how it ends; a further call has to end in
/// the same way.
pub fn read<F: Files>(alloc: Global, files: &mut F) -> Result<Text, Fail>
    requires { IsTrue (F.state files.old).is_open }
{
    let mut reader = Reader::new(alloc);
    let mut said = Text::new(alloc);
    for _turn in 0..100_000u64 {
        if push_next(alloc, &mut reader, files, &mut said)? {
            return Ok(said);
        }
    }
    Err("too many steps".into())
}

// Puts what the next call answers behind what was said, and answers whether that is an end.
fn push_next<F: Files>(
    alloc: Global,
    reader: &mut Reader,
    files: &mut F,
    said: &mut Text,
) -> Result<bool, Fail>
    requires { IsTrue (F.state files.old).is_open }
    ensures { IsTrue (F.state files.new).is_open }
{
    match reader.next_step(files) {
        Ok(Some(step)) => {
            push_line(alloc, said, &step)?;
            Ok(false)
        },
        Ok(None) => {
            said.push_str("end")?;
            push_again(reader, files, said, None)?;
            Ok(true)
        },
        Err(end) => {
            push_end(said, end)?;
            push_again(reader, files, said, Some(end))?;
            Ok(true)
        },
    }
}

// Says so where a further call does not end in the same way.
fn push_again<F: Files>(
    reader: &mut Reader,
    files: &mut F,
    said: &mut Text,
    end: Option<TraceEnd>,
) -> Result<(), OutOfMemory>
    requires { IsTrue (F.state files.old).is_open }
    ensures { IsTrue (F.state files.new).is_open }
{
    match reader.next_step(files) {
        Ok(None) if end.is_none() => Ok(()),
        Err(again) if end == Some(again) => Ok(()),
        _ => said.push_str(", and then another answer"),
    }
}

fn push_line(alloc: Global, said: &mut Text, step: &TraceStep) -> Result<(), OutOfMemory> {
    let line = step_text(alloc, step)?;
    said.push_str(line.as_str())?;
    said.push('\n')
}

fn push_end(said: &mut Text, end: TraceEnd) -> Result<(), OutOfMemory> {
    match end {
        TraceEnd::OutOfMemory => Err(OutOfMemory),
        TraceEnd::ReadFault => said.push_str("fault"),
        TraceEnd::Refused { line, rule } => push_refusal(said, line, rule),
    }
}

fn push_refusal(said: &mut Text, line: u64, rule: u8) -> Result<(), OutOfMemory> {
    said.push_str("line ")?;
    said.push_unsigned(line)?;
    said.push_str(" rule ")?;
    said.push_unsigned(rule as u64)
}

// A trace, and what is read of it.
struct Row {
    name: &'static str,
    trace: &'static [u8],
    says: &'static str,
}

const ROWS: &[Row] = &[
    Row {
        name: "nothing",
        trace: b"",
        says: "end",
    },
    Row {
        name: "a last line without LF",
        trace: b"{\"push\":1}",
        says: "push 1\nend",
    },
    Row {
        name: "blank lines are counted",
        trace: b"\n \r\n{\"push\":1}\n\t\n{\"push\":2}\r\nx\n{\"push\":3}\n",
        says: "push 1\npush 2\nline 6 rule 2",
    },
    Row {
        name: "blanks behind the last LF",
        trace: b"{\"push\":1}\n  ",
        says: "push 1\nend",
    },
    Row {
        name: "texts with escapes, line after line",
        trace: br#"{"push":"a\nb, and more"}
{"push":"c"}
{"push":"\t"}
{"p\u0075sh":{"\u0061":"\u0062"}}"#,
        says: "push \"a\\nb, and more\"\npush \"c\"\npush \"\\t\"\npush {\"a\":\"b\"}\nend",
    },
    Row {
        name: "a repeated key between lines without one, and then a fraction",
        trace: br#"{"push":1}
{"push":{"a":1,"a":2}}
{"push":{"b":[3]}}
{"push":[4,0.5]}
{"push":5}"#,
        says: "push 1\npush {\"a\":2}\npush {\"b\":[3]}\nline 4 rule 3",
    },
    Row {
        name: "half of an object behind good lines",
        trace: br#"{"push":{"a":[1]}}
{"push":{"a":[1}}"#,
        says: "push {\"a\":[1]}\nline 2 rule 2",
    },
    Row {
        name: "what a page is known by",
        trace: br#"{"page":{"url":"https://a.example/"}}
{"cookie":"c","values":["1","2"]}
{"global":"g.h","value":{"i":1}}
{"global":"f","returns":[2]}
{"time":3}
{"push":4}"#,
        says: "page url=https://a.example/\ncookie c 1|2|\nglobal g.h {\"i\":1}\n\
               returns f [2]\ntime 3\npush 4\nend",
    },
    Row {
        name: "arguments, which are not run yet",
        trace: b"{\"time\":1}\n{\"args\":[]}",
        says: "time 1\nline 2 rule 8",
    },
    Row {
        name: "how a load ended, which is not run yet",
        trace: b"{\"push\":1}\n{\"load\":1,\"ok\":true}\n",
        says: "push 1\nline 2 rule 8",
    },
    Row {
        name: "how a start ended, which is not run yet",
        trace: b"{\"vendor\":1,\"ok\":false}",
        says: "line 1 rule 8",
    },
    Row {
        name: "a default of consent for regions",
        trace: b"{\"args\":[\"consent\",\"default\",{\"region\":1}]}",
        says: "line 1 rule 7",
    },
];

#[test]
fn traces(rt: HostRuntime) -> Result<(), Fail> {
    let alloc = rt.alloc();
    for row in ROWS {
        let mut files = opened(alloc, row.trace, None)?;
        assert_eq!(rt; read(alloc, &mut files)?.as_str(), row.says, "{}", row.name);
        let mut slow = OneByte {
            files: opened(alloc, row.trace, None)?,
        };
        assert_eq!(rt;
            read(alloc, &mut slow)?.as_str(),
            row.says,
            "{}, byte by byte",
            row.name
        );
    }
    Ok(())
}

// Many pushes, over several pieces of a file.
fn many_pushes(alloc: Global) -> Result<Text, OutOfMemory> {
    let mut trace = Text::new(alloc);
    for number in 0..1_000u64 {
        trace.push_str("{\"push\":")?;
        trace.push_unsigned(number)?;
        trace.push_str("}\n")?;
    }
    Ok(trace)
}

#[test]
fn many_steps_byte_by_byte(rt: HostRuntime) -> Result<(), Fail> {
    let alloc = rt.alloc();
    let trace = many_pushes(alloc)?;
    let mut files = opened(alloc, trace.as_str().as_bytes(), None)?;
    let said = read(alloc, &mut files)?;
    let mut slow = OneByte {
        files: opened(alloc, trace.as_str().as_bytes(), None)?,
    };
    assert!(rt; read(alloc, &mut slow)?.is(said.as_str()), "the same steps");
    assert!(rt; said.as_str().ends_with("push 999\nend"), "all steps");
    Ok(())
}

// The second read fails: the steps of all lines that the first one ended are handed out, and then
// the fault.
#[test]
fn a_fault_of_the_second_read(rt: HostRuntime) -> Result<(), Fail> {
    let alloc = rt.alloc();
    let trace = many_pushes(alloc)?;
    let bytes = trace.as_str().as_bytes();
    let mut files = opened(alloc, bytes, Some(3))?;
    let said = read(alloc, &mut files)?;
    assert!(rt; said.as_str().ends_with("\nfault"), "the fault");
    let ended = line_feeds(&bytes[..4_096.min(bytes.len())]);
    assert_eq!(rt;
        line_feeds(said.as_str().as_bytes()),
        ended,
        "the steps before it"
    );
    assert_eq!(rt; files.faults(), 1, "one fault");
    Ok(())
}

// Each read behind the end would fail, and none is made: the calls before are the opening, a read
// of all bytes, and one that meets the end.
#[test]
fn faults_behind_the_end(rt: HostRuntime) -> Result<(), Fail> {
    let alloc = rt.alloc();
    let mut files = opened(alloc, b"{\"push\":1}", None)?;
    files.fail_at(4)?;
    files.fail_at(5)?;
    files.fail_at(6)?;
    assert_eq!(rt;
        read(alloc, &mut files)?.as_str(),
        "push 1\nend",
        "a last line without LF"
    );
    assert_eq!(rt; files.faults(), 0, "no fault");
    Ok(())
}

fn line_feeds(bytes: &[u8]) -> usize {
    bytes.iter().filter(|b| **b == b'\n').count()
}
