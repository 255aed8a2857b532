use crate::reading::{opened, read};
use gtm_base::OutOfMemory;
use std::alloc::Global;
use std::test::Fail;
use trace_reader::MAX_LINE;

// A push of a text, of so many bytes in all, of which there are over ten.
fn push_of(alloc: Global, bytes: usize) -> Result<Vec<u8>, OutOfMemory> {
    let mut line = Vec::new(alloc);
    line.extend_from_slice(b"{\"push\":\"")?;
    line.resize(bytes.saturating_sub(2), b'a')?;
    line.extend_from_slice(b"\"}")?;
    Ok(line)
}

#[test]
fn a_line_of_the_most_bytes(rt: HostRuntime) -> Result<(), Fail> {
    let alloc = rt.alloc();
    let mut line = push_of(alloc, MAX_LINE)?;
    assert_eq!(rt; line.len(), MAX_LINE, "without an LF");
    let without = read(alloc, &mut opened(alloc, &line, None)?)?;
    assert!(rt;
        without.as_str().ends_with("\"\nend"),
        "a step without an LF"
    );
    line.push(b'\n')?;
    let with = read(alloc, &mut opened(alloc, &line, None)?)?;
    assert!(rt; with.is(without.as_str()), "the same with an LF");
    Ok(())
}

#[test]
fn a_line_of_one_byte_more(rt: HostRuntime) -> Result<(), Fail> {
    let alloc = rt.alloc();
    let mut line = push_of(alloc, MAX_LINE + 1)?;
    assert_eq!(rt;
        read(alloc, &mut opened(alloc, &line, None)?)?.as_str(),
        "line 1 rule 1",
        "without an LF"
    );
    line.push(b'\n')?;
    assert_eq!(rt;
        read(alloc, &mut opened(alloc, &line, None)?)?.as_str(),
        "line 1 rule 1",
        "with an LF"
    );
    Ok(())
}
