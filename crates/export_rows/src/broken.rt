use crate::judging::{Row, padded, told, with_version};
use crate::version_rows::VERSIONS;
use crate::whole_rows::WHOLES;
use std::test::Fail;

// An export has at most so many bytes.
const MOST_BYTES: usize = 8_388_608;

// Texts that are made one byte too large by spaces behind them.
const PADDED: [Row; 2] = [
    Row {
        name: "one byte too many",
        text: br#"{"exportFormatVersion":2,"containerVersion":{}}"#,
        rule: 1,
        path: "",
    },
    // Rules 1 and 2.
    Row {
        name: "one byte too many, and no JSON",
        text: b"{",
        rule: 1,
        path: "",
    },
];

// Exports that are too large, that are broken as a whole, and that are broken within their
// container version.
#[test]
fn broken_exports(rt: HostRuntime) -> Result<(), Fail> {
    let alloc = rt.alloc();
    for row in PADDED.as_slice() {
        let export = padded(alloc, row.text, MOST_BYTES + 1)?;
        let (rule, path) = told(alloc, &export)?;
        assert_eq!(rt; rule, row.rule, "{}", row.name);
        assert_eq!(rt; path.as_str(), row.path, "{}", row.name);
    }
    for row in WHOLES {
        let (rule, path) = told(alloc, row.text)?;
        assert_eq!(rt; rule, row.rule, "{}", row.name);
        assert_eq!(rt; path.as_str(), row.path, "{}", row.name);
    }
    for row in VERSIONS {
        let export = with_version(alloc, row.text)?;
        let (rule, path) = told(alloc, &export)?;
        assert_eq!(rt; rule, row.rule, "{}", row.name);
        assert_eq!(rt; path.as_str(), row.path, "{}", row.name);
    }
    Ok(())
}

// The same texts break no rule 1 with one byte less.
#[test]
fn exports_of_the_most_bytes(rt: HostRuntime) -> Result<(), Fail> {
    let alloc = rt.alloc();
    for (row, rule) in PADDED.iter().zip([0u8, 2]) {
        let export = padded(alloc, row.text, MOST_BYTES)?;
        assert_eq!(rt; export.len(), MOST_BYTES, "{}", row.name);
        let (found, path) = told(alloc, &export)?;
        assert_eq!(rt; found, rule, "{}", row.name);
        assert_eq!(rt; path.as_str(), "", "{}", row.name);
    }
    Ok(())
}
