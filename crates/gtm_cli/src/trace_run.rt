ghost use Rattle.std.specs.Prelude.{◌≡◌, ℕ, List, None, Some, Err, true, false, IsTrue, OnOk, IfOk};
ghost use Rattle.std.specs.Prelude.{IfErr};
ghost use Rattle.std.specs.Str.{chars};
ghost use Rattle.export_model.specs.Sound.{Sound};
ghost use Rattle.gtm_base.specs.Causes.{Counts, has_failed};
ghost use Rattle.gtm_base.specs.Engines.{HandsOn};
ghost use Rattle.gtm_base.specs.Outside.{ReadsOn, Writes};
ghost use Rattle.gtm_cli.specs.Failures.{RefusesNone, is_out_fault, is_trace_fault};
ghost use Rattle.gtm_cli.specs.Failures.{status_of_run, trace_refusal};
ghost use Rattle.gtm_cli.specs.Opening.{OpensFile};
ghost use Rattle.gtm_cli.specs.Running.{RunsOpen, RunsSteps, RunsTrace, TellsEnd};
ghost use Rattle.replay_engine.specs.EngineState.{state_at};
ghost use Rattle.replay_engine.specs.Jobs.{start};
ghost use Rattle.replay_engine.specs.Run.{closing, lines_text, warnings};

use crate::failures::RunFailure;
use export_model::Container;
use gtm_base::{Engines, Files, Sink};
use replay_engine::Engine;
use std::alloc::Global;
use trace_reader::Reader;

/// Opens a trace and runs it over a container: each step is run before the next one is read.
pub fn run_trace<F: Files, S: Sink, E: Engines>(
    alloc: Global,
    container: Container,
    name: &str,
    files: &mut F,
    out: &mut S,
    engines: &mut E,
) -> Result<(), RunFailure>
    requires { Sound container }
    ensures files { OpensFile is_trace_fault result
        (F.state files.old) (F.state files.new) (chars name.now) }
    ensures out { Counts (has_failed is_out_fault result)
        (S.state out.old).faults (S.state out.new).faults }
    ensures engines { HandsOn trace_refusal result (E.state engines.old) (E.state engines.new) }
    ensures runs { RunsTrace container (status_of_run result) (chars name.now)
        (F.state files.old) (F.state files.new) (S.state out.old) (S.state out.new) }
{
    if files.open(name).is_err() {
        return Err(RunFailure::Unread);
    }
    run_open(alloc, container, files, out, engines)
}

// Runs the open trace: the warnings, the steps, and the closing lines.
fn run_open<F: Files, S: Sink, E: Engines>(
    alloc: Global,
    container: Container,
    files: &mut F,
    out: &mut S,
    engines: &mut E,
) -> Result<(), RunFailure>
    requires open { IsTrue (F.state files.old).is_open }
    requires sound { Sound container }
    ensures files { ReadsOn is_trace_fault result (F.state files.old) (F.state files.new) }
    ensures out { Counts (has_failed is_out_fault result)
        (S.state out.old).faults (S.state out.new).faults }
    ensures engines { HandsOn trace_refusal result (E.state engines.old) (E.state engines.new) }
    ensures runs { (bytes left : List ℕ) → (F.state files.old).left ≡ Some bytes
        → (F.state files.new).left ≡ Some left
        → RunsOpen container result bytes (S.state out.old).taken (S.state out.new).taken left }
{
    let mut engine = begin(alloc, container, out)?;
    run_steps(alloc, &mut engine, files, out, engines)?;
    close(&mut engine, out)
}

// An engine whose warnings were written.
fn begin<S: Sink>(alloc: Global, container: Container, out: &mut S) -> Result<Engine, RunFailure>
    requires { Sound container }
    ensures out { Writes is_out_fault result (S.state out.old) (S.state out.new)
        (lines_text (warnings container)) }
    ensures fault { IfErr result (λ failure. is_trace_fault failure ≡ false) }
    ensures ends { IfErr result (λ failure. TellsEnd (status_of_run (Err failure)) → ⊥) }
    ensures unrefused { IfErr result RefusesNone }
    ensures state { IfOk result (λ engine. state_at engine ≡ start container) }
    ensures going { IfOk result (λ engine. engine.ended ≡ None) }
{
    let mut engine = Engine::new(alloc, container)?;
    match engine.start(out) {
        Ok(()) => Ok(engine),
        Err(end) => Err(RunFailure::from(end)),
    }
}

// Writes the closing lines.
fn close<S: Sink>(engine: &mut Engine, out: &mut S) -> Result<(), RunFailure>
    requires { engine.old.ended ≡ None }
    ensures out { Writes is_out_fault result (S.state out.old) (S.state out.new)
        (lines_text (closing (state_at engine.old))) }
    ensures fault { IfErr result (λ failure. is_trace_fault failure ≡ false) }
    ensures ends { IfErr result (λ failure. TellsEnd (status_of_run (Err failure)) → ⊥) }
    ensures unrefused { IfErr result RefusesNone }
{
    match engine.close(out) {
        Ok(()) => Ok(()),
        Err(end) => Err(RunFailure::from(end)),
    }
}

// Runs the steps of the open trace up to its end, or to its first bad line.
fn run_steps<F: Files, S: Sink, E: Engines>(
    alloc: Global,
    engine: &mut Engine,
    files: &mut F,
    out: &mut S,
    engines: &mut E,
) -> Result<(), RunFailure>
    requires open { IsTrue (F.state files.old).is_open }
    requires going { engine.old.ended ≡ None }
    ensures files { ReadsOn is_trace_fault result (F.state files.old) (F.state files.new) }
    ensures out { Counts (has_failed is_out_fault result)
        (S.state out.old).faults (S.state out.new).faults }
    ensures engines { HandsOn trace_refusal result (E.state engines.old) (E.state engines.new) }
    ensures runs { (bytes left : List ℕ) → (F.state files.old).left ≡ Some bytes
        → (F.state files.new).left ≡ Some left
        → RunsSteps result (state_at engine.old) (state_at engine.new) bytes
        (S.state out.old).taken (S.state out.new).taken left }
    ensures going { OnOk result (engine.new.ended ≡ None) }
{
    let mut reader = Reader::new(alloc);
    loop {
        match reader.next_step(files) {
            Ok(Some(step)) => engine.step(step, out, engines)?,
            Ok(None) => return Ok(()),
            Err(end) => return Err(RunFailure::from(end)),
        }
    }
}
