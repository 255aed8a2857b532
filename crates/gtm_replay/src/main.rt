//! Replays a trace over a container export, and prints the run.
#![tactic(auto)]

ghost use Rattle.std.specs.Prelude.{◌≡◌, IfOk};

use engine_forms::PackEngines;
use gtm_base::{DiskFiles, OutOfMemory, OutSink, Status, put};
use gtm_cli::replay;
use std::env;
use std::io::ErrorKind;
use std::process::ExitCode;
use std::rt::Env;

fn main(rt: HostRuntime) -> ExitCode {
    ExitCode::from(status(rt).code())
}

fn status(rt: HostRuntime) -> Status {
    match begin(&rt) {
        Ok(begun) => run(rt, begun),
        Err(OutOfMemory) => {
            let _ = eprintln!(rt; "gtm_replay: out of memory");
            Status::OutOfMemory
        },
    }
}

// What a run begins with.
#[derive(Drop)]
struct Begun {
    words: Vec<String>,
    out: OutSink,
    err: OutSink,
}

fn begin(rt: &HostRuntime) -> Result<Begun, OutOfMemory>
    ensures out { IfOk result (λ begun. begun.out.faults ≡ 0) }
    ensures err { IfOk result (λ begun. begun.err.faults ≡ 0) }
{
    let words = words(rt)?;
    let out = OutSink::stdout(rt.alloc(), rt.stdout())?;
    let err = OutSink::stderr(rt.alloc(), rt.stderr())?;
    Ok(Begun { words, out, err })
}

// Runs the command, and hands on what the sinks keep. A run whose last bytes can't be written is
// not done.
fn run(rt: HostRuntime, begun: Begun) -> Status
    requires out { begun.out.faults ≡ 0 }
    requires err { begun.err.faults ≡ 0 }
{
    let alloc = rt.alloc();
    let Begun {
        words,
        mut out,
        mut err,
    } = begun;
    let mut files = DiskFiles::new(alloc, rt);
    let mut engines = PackEngines::new(alloc);
    let mut status = replay(
        alloc,
        words.as_slice(),
        &mut files,
        &mut out,
        &mut err,
        &mut engines,
    );
    let finished = out.finish();
    if matches!(status, Status::Done) && finished.is_err() {
        let _ = put(&mut err, b"gtm_replay: cannot write\n");
        status = Status::SinkFault;
    }
    let _ = err.finish();
    status
}

// The words behind the program's name. Where one is no UTF-8 there are none, and so no command.
fn words(rt: &(impl Env + AllocGlobal)) -> Result<Vec<String>, OutOfMemory> {
    let mut words = Vec::new(rt.alloc());
    match env::args(rt) {
        Ok(args) => for word in args.skip(1) {
            words.push(word)?;
        },
        Err(error) => if error.kind() == ErrorKind::OutOfMemory {
            return Err(OutOfMemory);
        },
    }
    Ok(words)
}
