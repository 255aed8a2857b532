ghost use Rattle.std.specs.Prelude.{◌≡◌, ◌<◌, ◌⊎◌, ◌∷◌, [], ℕ, List, Some, IfOk, encode_utf8_all};
ghost use Rattle.gtm_base.specs.Memory.{sink_state};
ghost use Rattle.gtm_base.specs.Outside.{TookFront};
ghost use Rattle.gtm_base.specs.declared.status.Status.TheVariants as status;
ghost use Rattle.gtm_cli.specs.Models.{IsModels, model_text};
ghost use Rattle.gtm_cli.specs.Replays.{Handed};
ghost use Rattle.gtm_cli.specs.Report.{Reports};
ghost use Rattle.gtm_rows.specs.Held.{HoldsBoth, export_name, trace_name, untouched};

use engine_forms::PlannedEngines;
use gtm_base::{MemFiles, MemSink, OutOfMemory, Status};
use gtm_cli::replay;
use std::alloc::Global;

/// How a run ended, and the files and sinks behind it.
#[derive(Drop)]
pub struct Ran {
    pub status: Status,
    pub files: MemFiles,
    pub out: MemSink,
    pub err: MemSink,
    pub engines: PlannedEngines,
}

/// The call of the files, of `out` and of `err` that is to fail, and that of the engines that is to
/// be refused, counted from 1; 0 for none.
#[derive(Clone, Copy)]
pub struct Failing {
    pub files: u64,
    pub out: u64,
    pub err: u64,
    pub engines: u64,
}

/// No call is to fail.
pub const NONE: Failing = Failing {
    files: 0,
    out: 0,
    err: 0,
    engines: 0,
};

/// Runs the words `run e.json t.jsonl` where these bytes are the export and the trace.
///
/// Where no call of the files and of `out` failed and none of the engines was refused, the status
/// and what `out` took are the model's, or memory was wanting. An error comes only where memory is
/// wanting for the files, the sinks, the engines or the words.
pub fn run_over(
    alloc: Global,
    export: &[u8],
    trace: &[u8],
    failing: Failing,
) -> Result<Ran, OutOfMemory>
    ensures model { IfOk result (λ ran. ran.files.faults ≡ 0 → ran.out.faults ≡ 0
        → ran.engines.engines.count ≡ 0 → (ran.status ≡ status.OutOfMemory)
        ⊎ IsModels export.now trace.now ran.status (Some []) (Some ran.out.bytes)) }
    ensures front { IfOk result (λ ran.
        TookFront (Some []) (Some ran.out.bytes) (model_text export.now trace.now)) }
    ensures command { IfOk result (λ ran. ran.status ≡ status.Usage → ⊥) }
    ensures unwritten { IfOk result (λ ran. ran.status ≡ status.SinkFault → 0 < ran.out.faults) }
    ensures refused { IfOk result (λ ran. (text : List ℕ)
        → ran.status ≡ status.EngineRefused text
        → (0 < ran.engines.engines.count) × (ran.engines.engines.last ≡ encode_utf8_all text)) }
    ensures names { IfOk result (λ ran.
        Handed (Some []) ran.files.names (export_name ∷ trace_name ∷ [])) }
    ensures err { IfOk result (λ ran.
        Reports ran.files.names ran.status untouched (sink_state ran.err)) }
{
    let mut files = holding(alloc, export, trace)?;
    files.fail_at(failing.files)?;
    let mut out = MemSink::new(alloc);
    out.fail_at(failing.out)?;
    let mut err = MemSink::new(alloc);
    err.fail_at(failing.err)?;
    let mut engines = PlannedEngines::new(alloc);
    engines.refuse_at(failing.engines)?;
    let words = [
        String::from_str(alloc, "run")?,
        String::from_str(alloc, "e.json")?,
        String::from_str(alloc, "t.jsonl")?,
    ];
    let status = replay(alloc, &words, &mut files, &mut out, &mut err, &mut engines);
    Ok(Ran {
        status,
        files,
        out,
        err,
        engines,
    })
}

// Files that hold the export as `e.json` and the trace as `t.jsonl`.
fn holding(alloc: Global, export: &[u8], trace: &[u8]) -> Result<MemFiles, OutOfMemory>
    ensures held { IfOk result (λ files. HoldsBoth files.held export.now trace.now) }
    ensures unfailed { IfOk result (λ files. files.faults ≡ 0) }
    ensures names { IfOk result (λ files. files.names ≡ Some []) }
{
    let mut files = MemFiles::new(alloc);
    files.add("e.json", export)?;
    files.add("t.jsonl", trace)?;
    Ok(files)
}
