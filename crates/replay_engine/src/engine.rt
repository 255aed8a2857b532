ghost use Rattle.std.specs.Prelude.{◌≡◌, ℕ, List, Err, Some, None, IsTrue, OnOk, IfOk, IfSome};
ghost use Rattle.std.specs.Prelude.{IfErr, IfNone};
ghost use Rattle.export_model.specs.Sound.{Sound};
ghost use Rattle.gtm_base.specs.Engines.{HandsOn};
ghost use Rattle.gtm_base.specs.Outside.{Writes};
ghost use Rattle.replay_engine.specs.Addresses.{asked_texts};
ghost use Rattle.replay_engine.specs.EngineState.{RunsStep, state_at};
ghost use Rattle.replay_engine.specs.Jobs.{start};
ghost use Rattle.replay_engine.specs.Run.{step_run, closing, lines_text, warnings};
ghost use Rattle.replay_engine.specs.RunFault.{is_run_fault, end_in, AnswersAgain, IsAgain};
ghost use Rattle.replay_engine.specs.RunFault.{NeverLimits, RefusesOnly, run_refusal};
ghost use Rattle.trace_forms.specs.Views.{step_of};

use crate::RunEnd;
use crate::event_model::EventModel;
use export_model::Container;
use gtm_base::{Engines, OutOfMemory, Sink};
use std::alloc::Global;
use std::marker::Model;
use trace_forms::TraceStep;

/// The event model of a container, run step by step.
///
/// After an error the engine has ended: each later call does nothing and answers the same, or
/// `OutOfMemory` where there is no memory for the text of an `EngineRefused`.
#[derive(Drop)]
pub struct Engine {
    model: EventModel,
    ended: Option<RunEnd>,
}

impl Model for Engine {
    ghost use Rattle.std.specs.Prelude.{◌≡◌, None};
    ghost use Rattle.std.specs.Coded.{codes};
    ghost use Rattle.export_model.specs.contracts.params.ParamValue as param_value;
    ghost use Rattle.gtm_data.specs.contracts.data.Data as value;
    ghost use Rattle.page_world.specs.contracts.page.Page as page_facts;
    ghost use Rattle.replay_engine.specs.EngineState.{EngineState, IsReady};
    ghost use Rattle.replay_engine.specs.Views.{standing_of};

    ghost Value = { EngineState };

    ghost coded = { Prim.hlevel
        (codes, param_value.the_row.coded, value.the_row.coded, page_facts.the_row.coded) };

    ghost view = { λ engine. record {
      standing = standing_of engine.model;
      ended = engine.ended;
    } };

    ghost invariant = { λ engine. engine.ended ≡ None → IsReady engine.model };
}

impl Engine {
    /// An engine before its first step.
    pub fn new(alloc: Global, container: Container) -> Result<Engine, OutOfMemory>
        requires { Sound container }
        ensures state { IfOk result (λ engine. state_at engine ≡ start container) }
        ensures ended { IfOk result (λ engine. engine.ended ≡ None) }
    {
        Ok(Engine {
            model: EventModel::new(alloc, container)?,
            ended: None,
        })
    }

    /// Writes the warnings: what of the container is not run as it is meant. So far there are none.
    pub fn start<S: Sink>(&mut self, out: &mut S) -> Result<(), RunEnd>
        ensures again { IfSome self.old.ended (λ end.
            AnswersAgain end result × (self.new ≡ self.old) × (out.new ≡ out.old)) }
        ensures lines { IfNone self.old.ended (Writes is_run_fault result
            (S.state out.old) (S.state out.new)
            (lines_text (warnings (state_at self.old).container))) }
        ensures state { OnOk result (state_at self.new ≡ state_at self.old) }
        ensures unlimited { IfNone self.old.ended (NeverLimits result) }
        ensures ended { IfNone self.old.ended (self.new.ended ≡ end_in result) }
    {
        match &self.ended {
            Some(end) => Err(end.again(self.model.alloc)),
            None => Ok(()),
        }
    }

    /// Runs a step with all its jobs, and writes their lines.
    ///
    /// `JobLimit` comes exactly where the step needs more than `MAX_JOBS` jobs; then the lines of
    /// that many were written. `SinkFault` comes only with a rise of the sink's count; then a front
    /// of the lines was written. `EngineRefused` comes only with a rise of the engines' count, with
    /// the text that they tell, which is an address of the step; then nothing was written.
    pub fn step<S: Sink, E: Engines>(
        &mut self,
        step: TraceStep,
        out: &mut S,
        engines: &mut E,
    ) -> Result<(), RunEnd>
        ensures again { IfSome self.old.ended (λ end.
            AnswersAgain end result × (self.new ≡ self.old) × (out.new ≡ out.old)
            × (engines.new ≡ engines.old)) }
        ensures runs { IfNone self.old.ended (RunsStep result
            (step_run (state_at self.old) (step_of step)) (state_at self.new)
            (S.state out.old) (S.state out.new)) }
        ensures engines { IfNone self.old.ended
            (HandsOn run_refusal result (E.state engines.old) (E.state engines.new)) }
        ensures asked { IfNone self.old.ended
            (IfErr result (RefusesOnly (asked_texts (step_of step)))) }
        ensures ended { IfNone self.old.ended (self.new.ended ≡ end_in result) }
    {
        if let Some(end) = &self.ended {
            return Err(end.again(self.model.alloc));
        }
        match self.model.step(step, out, engines) {
            Ok(()) => Ok(()),
            Err(end) => Err(end_so(self.model.alloc, &mut self.ended, end)),
        }
    }

    /// Writes the closing lines: the model of the data layer, and the counts.
    pub fn close<S: Sink>(&mut self, out: &mut S) -> Result<(), RunEnd>
        ensures again { IfSome self.old.ended (λ end.
            AnswersAgain end result × (self.new ≡ self.old) × (out.new ≡ out.old)) }
        ensures lines { IfNone self.old.ended (Writes is_run_fault result
            (S.state out.old) (S.state out.new) (lines_text (closing (state_at self.old)))) }
        ensures state { OnOk result (state_at self.new ≡ state_at self.old) }
        ensures unlimited { IfNone self.old.ended (NeverLimits result) }
        ensures ended { IfNone self.old.ended (self.new.ended ≡ end_in result) }
    {
        if let Some(end) = &self.ended {
            return Err(end.again(self.model.alloc));
        }
        match self.model.close(out) {
            Ok(()) => Ok(()),
            Err(line) => Err(end_so(self.model.alloc, &mut self.ended, RunEnd::from(line))),
        }
    }
}

// Ends a run so, or by want of memory where there is none for a second text.
fn end_so(alloc: Global, ended: &mut Option<RunEnd>, end: RunEnd) -> RunEnd
    ensures end { IsAgain end result }
    ensures ended { ended.new ≡ Some result }
{
    let (kept, answer) = twice(alloc, end);
    *ended = Some(kept);
    answer
}

// The end two times, or two times `OutOfMemory` where there is no memory for a second text.
fn twice(alloc: Global, end: RunEnd) -> (RunEnd, RunEnd)
    ensures same { result.0 ≡ result.1 }
    ensures again { IsAgain end result.1 }
{
    match end.again(alloc) {
        RunEnd::OutOfMemory => (RunEnd::OutOfMemory, RunEnd::OutOfMemory),
        kept => (kept, end),
    }
}
