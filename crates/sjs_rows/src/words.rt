use crate::telling::{Row, told};
use sjs_syntax::{is_left_out, is_word};
use std::test::Fail;

// The reserved words of the grammar that nothing else has.
const OWN: &[&str] = &[
    "if",
    "else",
    "while",
    "do",
    "for",
    "var",
    "let",
    "const",
    "break",
    "continue",
    "return",
    "function",
    "typeof",
    "true",
    "false",
    "null",
    "undefined",
];

// The reserved words that count as left out where no script can have them.
const LEFT_OUT: &[&str] = &[
    "switch",
    "case",
    "default",
    "try",
    "catch",
    "finally",
    "throw",
    "new",
    "this",
    "arguments",
    "delete",
    "in",
    "instanceof",
    "void",
    "with",
    "class",
    "extends",
    "super",
    "import",
    "export",
    "yield",
    "async",
    "await",
    "of",
    "debugger",
];

// Names.
const NAMES: &[&str] = &[
    "a",
    "Z",
    "_",
    "$",
    "$_a9",
    "a1",
    "iff",
    "If",
    "IF",
    "newer",
    "typeof_",
    "undefined1",
    "let$",
    "get",
    "set",
    "static",
    "enum",
    "NaN",
];

// Scripts.
const ROWS: &[Row] = &[
    ("i f", "N0-1 N2-3"),
    ("a.if", "N0-1 S1-2 R2-4"),
    ("x = 1 y = 2", "N0-1 S2-3 #1:4-5 N6-7 S8-9 #2:10-11"),
    ("a\n++b", "N0-1 !S2-4 N4-5"),
    (
        "if (a) b; else c",
        "R0-2 S3-4 N4-5 S5-6 N7-8 S8-9 R10-14 N15-16",
    ),
    ("new X", "R0-3 N4-5"),
    ("f(", "N0-1 S1-2"),
    ("switch (1) {}", "R0-6 S7-8 #1:8-9 S9-10 S11-12 S12-13"),
    ("f();", "N0-1 S1-2 S2-3 S3-4"),
    ("data;", "N0-4 S4-5"),
    ("a\n[b, c]", "N0-1 !S2-3 N3-4 S4-5 N6-7 S7-8"),
    (
        "const log = require('logToConsole');",
        "R0-5 N6-9 S10-11 N12-19 S19-20 'logToConsole':20-34 S34-35 S35-36",
    ),
];

#[test]
fn words(rt: HostRuntime) -> Result<(), Fail> {
    let alloc = rt.alloc();
    for row in ROWS {
        assert_eq!(rt; told(alloc, row.0)?.as_str(), row.1, "{:?}", row.0);
    }
    for word in OWN {
        let says = format!(in alloc; "R0-{}", word.len())?;
        assert_eq!(rt; told(alloc, word)?.as_str(), says.as_str(), "{word}");
        assert!(rt; !is_left_out(word), "{word}");
    }
    for word in LEFT_OUT {
        let says = format!(in alloc; "R0-{}", word.len())?;
        assert_eq!(rt; told(alloc, word)?.as_str(), says.as_str(), "{word}");
        assert!(rt; is_left_out(word), "{word}");
    }
    for name in NAMES {
        let says = format!(in alloc; "N0-{}", name.len())?;
        assert_eq!(rt; told(alloc, name)?.as_str(), says.as_str(), "{name}");
        assert!(rt; !is_word(name), "{name}");
    }
    Ok(())
}
