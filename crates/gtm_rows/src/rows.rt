use crate::{NONE, run_over};
use engine_forms::PlannedEngines;
use gtm_base::{MemFiles, MemSink, OutOfMemory};
use gtm_cli::replay;
use std::alloc::Global;
use std::test::Fail;

const EXPORT: &[u8] = b"{\"exportFormatVersion\":2,\"containerVersion\":{}}";

// A trace, its status, what it prints, and the line on standard error.
struct Row {
    name: &'static str,
    trace: &'static [u8],
    status: u8,
    out: &'static [u8],
    err: &'static [u8],
}

const ROWS: &[Row] = &[
    Row {
        name: "an empty trace",
        trace: b"",
        status: 0,
        out: b"model {}\nend steps=0 jobs=0 events=0 starts=0 ok=0 fail=0 denied=0 faults=0\n",
        err: b"",
    },
    Row {
        name: "Lists are merged by index",
        trace: b"{\"push\":{\"a\":[1,2,3]}}\n{\"push\":{\"a\":[9]}}\n",
        status: 0,
        out: b"message {\"a\":[1,2,3]}\nmessage {\"a\":[9]}\nmodel {\"a\":[9,2,3]}\nend steps=2 jobs=2 events=0 starts=0 ok=0 fail=0 denied=0 faults=0\n",
        err: b"",
    },
    Row {
        name: "Maps are merged by key",
        trace: b"{\"push\":{\"a.b\":1}}\n{\"push\":{\"a\":{\"c\":2}}}\n",
        status: 0,
        out: b"message {\"a.b\":1}\nmessage {\"a\":{\"c\":2}}\nmodel {\"a\":{\"b\":1,\"c\":2}}\nend steps=2 jobs=2 events=0 starts=0 ok=0 fail=0 denied=0 faults=0\n",
        err: b"",
    },
    Row {
        name: "quotes and backslashes",
        trace: b"{\"push\":{\"q\":\"a\\\"b\",\"s\":\"c\\\\d\"}}\n",
        status: 0,
        out: b"message {\"q\":\"a\\\"b\",\"s\":\"c\\\\d\"}\nmodel {\"q\":\"a\\\"b\",\"s\":\"c\\\\d\"}\nend steps=1 jobs=1 events=0 starts=0 ok=0 fail=0 denied=0 faults=0\n",
        err: b"",
    },
    Row {
        name: "control characters",
        trace: b"{\"push\":{\"c\":\"\\b\\f\\n\\r\\t\\u0001\\u001F\\u007f\"}}\n",
        status: 0,
        out: b"message {\"c\":\"\\b\\f\\n\\r\\t\\u0001\\u001f\x7f\"}\nmodel {\"c\":\"\\b\\f\\n\\r\\t\\u0001\\u001f\x7f\"}\nend steps=1 jobs=1 events=0 starts=0 ok=0 fail=0 denied=0 faults=0\n",
        err: b"",
    },
    Row {
        name: "a character past U+FFFF",
        trace: b"{\"push\":{\"u\":\"\\ud83d\\ude00\"}}\n",
        status: 0,
        out: b"message {\"u\":\"\xf0\x9f\x98\x80\"}\nmodel {\"u\":\"\xf0\x9f\x98\x80\"}\nend steps=1 jobs=1 events=0 starts=0 ok=0 fail=0 denied=0 faults=0\n",
        err: b"",
    },
    Row {
        name: "CR LF, blank lines and no last LF",
        trace: b"{\"push\":{\"a\":1}}\r\n\r\n \t\n\n{\"push\":{\"b\":true}}",
        status: 0,
        out: b"message {\"a\":1}\nmessage {\"b\":true}\nmodel {\"a\":1,\"b\":true}\nend steps=2 jobs=2 events=0 starts=0 ok=0 fail=0 denied=0 faults=0\n",
        err: b"",
    },
    Row {
        name: "a key given twice",
        trace: b"{\"push\":{\"a\":1,\"a\":2}}\n",
        status: 0,
        out: b"message {\"a\":2}\nmodel {\"a\":2}\nend steps=1 jobs=1 events=0 starts=0 ok=0 fail=0 denied=0 faults=0\n",
        err: b"",
    },
    Row {
        name: "events are counted",
        trace: b"{\"push\":{\"event\":\"x\"}}\n{\"push\":{\"event\":5}}\n{\"push\":{\"event\":{\"event\":\"z\"}}}\n{\"push\":{\"event\":\"y\"}}\n",
        status: 0,
        out: b"message {\"event\":\"x\"}\nevent 1 \"x\"\nmessage {\"event\":5}\nmessage {\"event\":{\"event\":\"z\"}}\nmessage {\"event\":\"y\"}\nevent 2 \"y\"\nmodel {\"event\":\"y\"}\nend steps=4 jobs=4 events=2 starts=0 ok=0 fail=0 denied=0 faults=0\n",
        err: b"",
    },
    Row {
        name: "what is no Map is ignored",
        trace: b"{\"push\":5}\n{\"push\":null}\n{\"push\":\"x\"}\n",
        status: 0,
        out: b"message 5 ignored\nmessage null ignored\nmessage \"x\" ignored\nmodel {}\nend steps=3 jobs=3 events=0 starts=0 ok=0 fail=0 denied=0 faults=0\n",
        err: b"",
    },
    Row {
        name: "the ends of the range",
        trace: b"{\"push\":{\"a\":9007199254740991,\"b\":-9007199254740991}}\n",
        status: 0,
        out: b"message {\"a\":9007199254740991,\"b\":-9007199254740991}\nmodel {\"a\":9007199254740991,\"b\":-9007199254740991}\nend steps=1 jobs=1 events=0 starts=0 ok=0 fail=0 denied=0 faults=0\n",
        err: b"",
    },
    Row {
        name: "no JSON in the second line",
        trace: b"{\"push\":{\"a\":1}}\n{\"push\":\n{\"push\":{\"a\":2}}\n",
        status: 5,
        out: b"message {\"a\":1}\n",
        err: b"gtm_replay: trace: line 2 rule 2\n",
    },
    Row {
        name: "commands and messages that are ignored",
        trace: b"{\"push\":{\"a\":\"x\"}}\n{\"push\":[\"a.push\",4]}\n{\"push\":5}\n",
        status: 0,
        out: b"message {\"a\":\"x\"}\ncommand [\"a.push\",4] ignored\nmessage 5 ignored\nmodel {\"a\":\"x\"}\nend steps=3 jobs=3 events=0 starts=0 ok=0 fail=0 denied=0 faults=0\n",
        err: b"",
    },
    Row {
        name: "the first event of a page",
        trace: b"{\"push\":{\"event\":\"gtm.js\",\"gtm.start\":1}}\n",
        status: 0,
        out: b"message {\"event\":\"gtm.init_consent\"}\nevent 1 \"gtm.init_consent\"\nmessage {\"event\":\"gtm.init\"}\nevent 2 \"gtm.init\"\nmessage {\"event\":\"gtm.js\",\"gtm.start\":1}\nevent 3 \"gtm.js\"\nmodel {\"event\":\"gtm.js\",\"gtm\":{\"start\":1}}\nend steps=1 jobs=3 events=3 starts=0 ok=0 fail=0 denied=0 faults=0\n",
        err: b"",
    },
    Row {
        name: "a page begins once, and not by a List or a number",
        trace: b"{\"push\":[\"event\",\"gtm.js\"]}\n{\"push\":\"gtm.js\"}\n{\"push\":{\"event\":[\"gtm.js\"]}}\n{\"push\":{\"event\":\"gtm.js\"}}\n{\"push\":{\"event\":\"gtm.js\"}}\n",
        status: 0,
        out: b"command [\"event\",\"gtm.js\"] ignored\nmessage \"gtm.js\" ignored\nmessage {\"event\":[\"gtm.js\"]}\nmessage {\"event\":\"gtm.init_consent\"}\nevent 1 \"gtm.init_consent\"\nmessage {\"event\":\"gtm.init\"}\nevent 2 \"gtm.init\"\nmessage {\"event\":\"gtm.js\"}\nevent 3 \"gtm.js\"\nmessage {\"event\":\"gtm.js\"}\nevent 4 \"gtm.js\"\nmodel {\"event\":\"gtm.js\"}\nend steps=5 jobs=7 events=4 starts=0 ok=0 fail=0 denied=0 faults=0\n",
        err: b"",
    },
    Row {
        name: "a page begins by a message that is ignored",
        trace: b"{\"push\":{\"event\":\"gtm.js\",\"k.k.k.k.k.k.k.k.k.k.k.k.k.k.k.k.k.k.k.k.k.k.k.k.k.k.k.k.k.k.k.k.k.k.k.k.k.k.k.k.k.k.k.k.k.k.k.k.k.k.k.k.k.k.k.k.k.k.k.k.k.k.k.k.k\":1}}\n",
        status: 0,
        out: b"message {\"event\":\"gtm.init_consent\"}\nevent 1 \"gtm.init_consent\"\nmessage {\"event\":\"gtm.init\"}\nevent 2 \"gtm.init\"\nmessage {\"event\":\"gtm.js\",\"k.k.k.k.k.k.k.k.k.k.k.k.k.k.k.k.k.k.k.k.k.k.k.k.k.k.k.k.k.k.k.k.k.k.k.k.k.k.k.k.k.k.k.k.k.k.k.k.k.k.k.k.k.k.k.k.k.k.k.k.k.k.k.k.k\":1} ignored\nmodel {\"event\":\"gtm.init\"}\nend steps=1 jobs=3 events=2 starts=0 ok=0 fail=0 denied=0 faults=0\n",
        err: b"",
    },
    Row {
        name: "a fraction in the second line",
        trace: b"{\"push\":{\"a\":1}}\n{\"push\":1.5}\n",
        status: 5,
        out: b"message {\"a\":1}\n",
        err: b"gtm_replay: trace: line 2 rule 3\n",
    },
    Row {
        name: "a number past the range",
        trace: b"{\"push\":{\"a\":9007199254740992}}\n",
        status: 5,
        out: b"",
        err: b"gtm_replay: trace: line 1 rule 3\n",
    },
    Row {
        name: "a number before the range",
        trace: b"{\"push\":{\"a\":[-9007199254740992]}}\n",
        status: 5,
        out: b"",
        err: b"gtm_replay: trace: line 1 rule 3\n",
    },
    Row {
        name: "a number with a fraction",
        trace: b"{\"push\":{\"a\":1.0}}\n",
        status: 5,
        out: b"",
        err: b"gtm_replay: trace: line 1 rule 3\n",
    },
    Row {
        name: "a number with an exponent",
        trace: b"{\"push\":{\"a\":1e2}}\n",
        status: 5,
        out: b"",
        err: b"gtm_replay: trace: line 1 rule 3\n",
    },
    Row {
        name: "a negative zero",
        trace: b"{\"push\":{\"a\":-0}}\n",
        status: 5,
        out: b"",
        err: b"gtm_replay: trace: line 1 rule 3\n",
    },
    Row {
        name: "twenty digits",
        trace: b"{\"push\":{\"a\":12345678901234567890}}\n",
        status: 5,
        out: b"",
        err: b"gtm_replay: trace: line 1 rule 3\n",
    },
    Row {
        name: "data of depth 65",
        trace: b"{\"push\":{\"a\":[[[[[[[[[[[[[[[[[[[[[[[[[[[[[[[[[[[[[[[[[[[[[[[[[[[[[[[[[[[[[[[[]]]]]]]]]]]]]]]]]]]]]]]]]]]]]]]]]]]]]]]]]]]]]]]]]]]]]]]]]]]]]]]]}}\n",
        status: 5,
        out: b"",
        err: b"gtm_replay: trace: line 1 rule 4\n",
    },
    Row {
        name: "another form, and one that is not run yet",
        trace: b"{\"push\":1}\n{\"page\":{}}\n{\"load\":1,\"ok\":true}\n",
        status: 5,
        out: b"message 1 ignored\n",
        err: b"gtm_replay: trace: line 3 rule 8\n",
    },
    Row {
        name: "a load of a number that is none",
        trace: b"{\"load\":0,\"ok\":true}\n",
        status: 5,
        out: b"",
        err: b"gtm_replay: trace: line 1 rule 6\n",
    },
    Row {
        name: "a default of consent for regions",
        trace: b"{\"args\":[\"consent\",\"default\",{\"region\":[\"US\"]}]}\n",
        status: 5,
        out: b"",
        err: b"gtm_replay: trace: line 1 rule 7\n",
    },
    Row {
        name: "a member too many",
        trace: b"{\"push\":{\"a\":1},\"x\":1}\n",
        status: 5,
        out: b"",
        err: b"gtm_replay: trace: line 1 rule 5\n",
    },
    Row {
        name: "no object",
        trace: b"[\"push\"]\n",
        status: 5,
        out: b"",
        err: b"gtm_replay: trace: line 1 rule 5\n",
    },
];

#[test]
fn traces(rt: HostRuntime) -> Result<(), Fail> {
    for row in ROWS {
        let ran = run_over(rt.alloc(), EXPORT, row.trace, NONE)?;
        assert_eq!(rt; ran.status.code(), row.status, "{}", row.name);
        assert_eq!(rt; ran.out.bytes(), row.out, "{}", row.name);
        assert_eq!(rt; ran.err.bytes(), row.err, "{}", row.name);
    }
    Ok(())
}

// An export, its status, and the line on standard error.
struct ExportRow {
    name: &'static str,
    export: &'static [u8],
    status: u8,
    err: &'static [u8],
}

const EXPORTS: &[ExportRow] = &[
    ExportRow {
        name: "no JSON",
        export: b"{\"exportFormatVersion\":2,\"containerVers",
        status: 4,
        err: b"gtm_replay: export: rule 2 at \"\"\n",
    },
    ExportRow {
        name: "nothing",
        export: b"",
        status: 4,
        err: b"gtm_replay: export: rule 2 at \"\"\n",
    },
    ExportRow {
        name: "a fraction",
        export: b"{\"exportFormatVersion\":2,\"x\":1.5,\"containerVersion\":{}}",
        status: 4,
        err: b"gtm_replay: export: rule 3 at \"/x\"\n",
    },
    ExportRow {
        name: "another format",
        export: b"{\"exportFormatVersion\":1,\"containerVersion\":{}}",
        status: 4,
        err: b"gtm_replay: export: rule 5 at \"/exportFormatVersion\"\n",
    },
    ExportRow {
        name: "no container version",
        export: b"{\"exportFormatVersion\":2}",
        status: 4,
        err: b"gtm_replay: export: rule 6 at \"/containerVersion\"\n",
    },
    ExportRow {
        name: "for servers",
        export: b"{\"exportFormatVersion\":2,\"containerVersion\":{\"container\":{\"usageContext\":[\"SERVER\"]}}}",
        status: 4,
        err: b"gtm_replay: export: rule 7 at \"/containerVersion/container/usageContext\"\n",
    },
    ExportRow {
        name: "a text for a boolean",
        export: b"{\"exportFormatVersion\":2,\"containerVersion\":{\"tag\":[{\"tagId\":\"1\",\"name\":\"A\",\"type\":\"img\",\"paused\":\"true\"}]}}",
        status: 4,
        err: b"gtm_replay: export: rule 8 at \"/containerVersion/tag/0/paused\"\n",
    },
    ExportRow {
        name: "a list that is none",
        export: b"{\"exportFormatVersion\":2,\"containerVersion\":{\"trigger\":{}}}",
        status: 4,
        err: b"gtm_replay: export: rule 8 at \"/containerVersion/trigger\"\n",
    },
    ExportRow {
        name: "a variable that refers to itself",
        export: b"{\"exportFormatVersion\":2,\"containerVersion\":{\"variable\":[{\"variableId\":\"1\",\"name\":\"A\",\"type\":\"c\",\"parameter\":[{\"type\":\"TEMPLATE\",\"key\":\"value\",\"value\":\"{{A}}\"}]}]}}",
        status: 4,
        err: b"gtm_replay: export: rule 16 at \"/containerVersion/variable/0\"\n",
    },
    ExportRow {
        name: "a tag, which is not run yet",
        export: b"{\"exportFormatVersion\":2,\"containerVersion\":{\"tag\":[{\"tagId\":\"1\",\"name\":\"A\",\"type\":\"img\"}]}}",
        status: 4,
        err: b"gtm_replay: export: rule 29 at \"/containerVersion/tag/0\"\n",
    },
    ExportRow {
        name: "empty lists",
        export: b"{\"exportFormatVersion\":2,\"x\":1,\"containerVersion\":{\"container\":{\"publicId\":\"GTM-A\",\"usageContext\":[\"WEB\"]},\"tag\":[],\"trigger\":[],\"variable\":[],\"builtInVariable\":[],\"customTemplate\":[]}}",
        status: 0,
        err: b"",
    },
];

#[test]
fn exports(rt: HostRuntime) -> Result<(), Fail> {
    for row in EXPORTS {
        let ran = run_over(rt.alloc(), row.export, b"", NONE)?;
        assert_eq!(rt; ran.status.code(), row.status, "{}", row.name);
        assert_eq!(rt; ran.err.bytes(), row.err, "{}", row.name);
        assert_eq!(rt; ran.out.bytes().is_empty(), row.status != 0, "{}", row.name);
    }
    Ok(())
}

// Words where the one file `e.json` is, their status, and the line on standard error.
struct WordsRow {
    words: &'static [&'static str],
    status: u8,
    err: &'static [u8],
}

const USAGE: &[u8] = b"usage: gtm_replay run EXPORT TRACE | gtm_replay self N\n";

const WORDS: &[WordsRow] = &[
    WordsRow {
        words: &[],
        status: 2,
        err: USAGE,
    },
    WordsRow {
        words: &["run", "e.json"],
        status: 2,
        err: USAGE,
    },
    WordsRow {
        words: &["self", "3"],
        status: 2,
        err: USAGE,
    },
    WordsRow {
        words: &["run", "x.json", "t.json"],
        status: 3,
        err: b"gtm_replay: cannot read \"x.json\"\n",
    },
    WordsRow {
        words: &["run", "e.json", "no \\ \"t\""],
        status: 3,
        err: b"gtm_replay: cannot read \"no \\\\ \\\"t\\\"\"\n",
    },
    WordsRow {
        words: &["run", "a\"b\\c", "t.json"],
        status: 3,
        err: b"gtm_replay: cannot read \"a\\\"b\\\\c\"\n",
    },
];

#[test]
fn commands(rt: HostRuntime) -> Result<(), Fail> {
    for row in WORDS {
        let words = owned(rt.alloc(), row.words)?;
        let mut files = MemFiles::new(rt.alloc());
        files.add("e.json", EXPORT)?;
        let mut out = MemSink::new(rt.alloc());
        let mut err = MemSink::new(rt.alloc());
        let mut engines = PlannedEngines::new(rt.alloc());
        let status = replay(
            rt.alloc(),
            words.as_slice(),
            &mut files,
            &mut out,
            &mut err,
            &mut engines,
        );
        assert_eq!(rt; status.code(), row.status);
        assert_eq!(rt; err.bytes(), row.err);
        assert!(rt; out.bytes().is_empty());
    }
    Ok(())
}

fn owned(alloc: Global, words: &[&str]) -> Result<Vec<String>, OutOfMemory> {
    let mut made = Vec::new(alloc);
    for word in words {
        made.push(String::from_str(alloc, word)?)?;
    }
    Ok(made)
}

// The longest line is read, and one byte more is too much.
#[test]
fn long_lines(rt: HostRuntime) -> Result<(), Fail> {
    for (size, status) in [(1_048_576, 0), (1_048_577, 5)] {
        let line = vec![in rt.alloc(); b' '; size]?;
        let ran = run_over(rt.alloc(), EXPORT, line.as_slice(), NONE)?;
        assert_eq!(rt; ran.status.code(), status);
    }
    Ok(())
}
