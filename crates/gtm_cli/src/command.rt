ghost use Rattle.std.specs.Prelude.{◌≡◌, ◌↔◌, None, IfSome, IfNone};
ghost use Rattle.std.specs.Str.{chars};
ghost use Rattle.gtm_cli.specs.Replays.{Replays};
ghost use Rattle.gtm_cli.specs.Report.{EndsWith, Reports};
ghost use Rattle.gtm_cli.specs.Words.{names_in};

use crate::export_file::load;
use crate::failures::status_of_run;
use crate::report::{put_usage, report};
use crate::trace_run::run_trace;
use crate::words::names_in;
use gtm_base::{Engines, Files, Sink, Status};
use std::alloc::Global;

/// Runs the command that the words give: `run EXPORT TRACE` runs the trace over the export and
/// writes the run to `out`, each step before the next one is read.
///
/// - `Done`: the whole text was written.
/// - `Usage`: exactly where the words are no command.
/// - `FileFault`: only where a call of `files` failed, or they lack the export, or the trace of an
///   accepted export. Where the trace could not be read on, the text of the steps of all lines
///   whose LF was read was written.
/// - `ExportRefused`: exactly by the first rule that the export breaks. Nothing was written.
/// - `TraceRefused`: exactly at the first bad line. The run of the lines before it was written,
///   without the closing lines.
/// - `EngineRefused`: only where a call of `engines` refused the text, which they tell and which a
///   step of the trace asks them for. The lines of the steps before it were written.
/// - `JobLimit`: exactly where a step needs a job more than it may have. The lines of the jobs that
///   it may have were written.
/// - `SinkFault`: only where a call of `out` failed.
/// - `OutOfMemory`: memory was wanting.
///
/// Whatever the status but `Done`, a line that says why goes to `err`; a failure of `err` changes
/// nothing.
pub fn replay<F: Files, S: Sink, E: Engines>(
    alloc: Global,
    words: &[String],
    files: &mut F,
    out: &mut S,
    err: &mut S,
    engines: &mut E,
) -> Status
    requires files { (F.state files.old).faults ≡ 0 }
    requires out { (S.state out.old).faults ≡ 0 }
    requires err { (S.state err.old).faults ≡ 0 }
    requires engines { (E.state engines.old).count ≡ 0 }
    ensures usage { (result ≡ Status.Usage) ↔ (names_in words.now ≡ None) }
    ensures usage_nothing { IfNone (names_in words.now)
        ((files.new ≡ files.old) × (out.new ≡ out.old) × (engines.new ≡ engines.old)) }
    ensures run { IfSome (names_in words.now) (λ names. Replays names result
        (F.state files.old) (F.state files.new) (S.state out.old) (S.state out.new)
        (E.state engines.new)) }
    ensures err { Reports (F.state files.new).names result (S.state err.old) (S.state err.new) }
{
    let Some((export, trace)) = names_in(words) else {
        put_usage(err);
        return Status::Usage;
    };
    let (status, name) = run_files(alloc, export, trace, files, out, engines);
    report(alloc, name, status, err)
}

// Loads the export and runs the trace. Gives the status, and the name that was opened last.
fn run_files<'a, F: Files, S: Sink, E: Engines>(
    alloc: Global,
    export: &'a str,
    trace: &'a str,
    files: &mut F,
    out: &mut S,
    engines: &mut E,
) -> (Status, &'a str)
    requires files { (F.state files.old).faults ≡ 0 }
    requires out { (S.state out.old).faults ≡ 0 }
    requires engines { (E.state engines.old).count ≡ 0 }
    ensures run { Replays (record { export = chars export.now; trace = chars trace.now }) result.0
        (F.state files.old) (F.state files.new) (S.state out.old) (S.state out.new)
        (E.state engines.new) }
    ensures last { EndsWith (F.state files.new).names (chars result.1.now) }
{
    match load(alloc, files, export) {
        Err(failure) => (failure.status(), export),
        Ok(loaded) => {
            let ending = run_trace(alloc, loaded.container, trace, files, out, engines);
            (status_of_run(ending), trace)
        },
    }
}
