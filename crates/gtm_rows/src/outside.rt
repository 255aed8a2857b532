use gtm_base::{DiskFiles, Files, OutSink, Sink, put};
use std::test::Fail;

// Every program's own file begins with the mark of its format.
#[test]
fn files_on_the_disk(rt: HostRuntime) -> Result<(), Fail> {
    let mut files = DiskFiles::new(rt.alloc(), rt.clone()?);
    assert!(rt; files.open("/proc/self/no such file").is_err());
    assert_eq!(rt; files.faults(), 1);
    let mut piece = [0u8; 4];
    match files.open("/proc/self/exe") {
        Ok(()) => assert_eq!(rt; files.read(&mut piece)?, 4),
        Err(_) => assert!(rt; false, "the program's file is not opened"),
    }
    assert_eq!(rt; piece.as_slice(), b"\x7fELF".as_slice());
    assert_eq!(rt; files.faults(), 1);
    Ok(())
}

#[test]
fn streams_of_the_system(rt: HostRuntime) -> Result<(), Fail> {
    let mut out = OutSink::stdout(rt.alloc(), rt.stdout())?;
    put(&mut out, b"a line on standard output\n")?;
    out.finish()?;
    assert_eq!(rt; out.faults(), 0);
    let mut err = OutSink::stderr(rt.alloc(), rt.stderr())?;
    put(&mut err, b"a line on standard error\n")?;
    err.finish()?;
    assert_eq!(rt; err.faults(), 0);
    Ok(())
}
