ghost use Rattle.std.specs.Prelude.{◌≡◌, ◌≤◌, ◌<◌, ◌+◌, ◌^◌, ◌*◌, IsSome, is_some, OnOk, IfOk};
ghost use Rattle.std.specs.Prelude.{MatchOption, None, Some, Err, ℕ, List, IsTrue, IfErr, option_map};
ghost use Rattle.std.specs.Prelude.{if◌then◌else◌};
ghost use Rattle.gtm_base.specs.Engines.{HandsOn};
ghost use Rattle.gtm_base.specs.Outside.{Writes};
ghost use Rattle.gtm_data.specs.Tree.{tree_of};
ghost use Rattle.page_world.specs.Known.{seen};
ghost use Rattle.gtm_data.specs.Facts.{fact_of, ids};
ghost use Rattle.page_world.specs.World.{after_fact};
ghost use Rattle.replay_engine.specs.Addresses.{asked_texts, fact_texts, filled};
ghost use Rattle.replay_engine.specs.EngineState.{IsReady, RunsStep};
ghost use Rattle.replay_engine.specs.Jobs.{start, opened, next_job, take_message, take_command};
ghost use Rattle.replay_engine.specs.Jobs.{take_value, job_step, is_list, event_lines, one_if};
ghost use Rattle.replay_engine.specs.Jobs.{take_jobs};
ghost use Rattle.replay_engine.specs.Messages.{event_name};
ghost use Rattle.replay_engine.specs.Run.{begin_step, step_run, closing, lines_text};
ghost use Rattle.replay_engine.specs.Views.{job_of, state_of};
ghost use Rattle.replay_engine.specs.RunFault.{IsUnbegun, IsUnrefused, RefusesOnly, run_refusal};
ghost use Rattle.run_log.specs.LineFault.{is_line_fault};
ghost use Rattle.trace_forms.specs.Views.{step_of};

use crate::facts::fill;
use crate::lines::{put_command, put_end, put_event, put_message, put_model};
use crate::messages::{consent_message, event_name, init_message};
use crate::waiting::{Job, Message, Waiting, first_begins, keep, keep_first};
use crate::{MAX_JOBS, MAX_STEPS, RunEnd};
use export_model::Container;
use gtm_base::{Engines, OutOfMemory, Sink, Text};
use gtm_data::{Data, PageFact};
use page_world::World;
use run_log::LineEnd;
use std::alloc::Global;
use trace_forms::TraceStep;

/// The event model of a container, and the counts of what it did.
#[derive(Drop)]
pub struct EventModel {
    pub alloc: Global,
    pub container: Container,
    pub world: World,
    pub waiting: Waiting,
    /// Whether a page has begun.
    pub begun: bool,
    pub steps: u64,
    pub jobs: u64,
    pub events: u64,
}

impl EventModel {
    /// Before the first step.
    pub fn new(alloc: Global, container: Container) -> Result<EventModel, OutOfMemory>
        ensures state { IfOk result (λ model. state_of model ≡ start container) }
        ensures ready { IfOk result IsReady }
    {
        let world = first_world(alloc, &container)?;
        Ok(EventModel {
            alloc,
            container,
            world,
            waiting: Waiting::new(alloc),
            begun: false,
            steps: 0,
            jobs: 0,
            events: 0,
        })
    }

    /// Runs a step with all its jobs, and writes their lines.
    pub fn step<S: Sink, E: Engines>(
        &mut self,
        step: TraceStep,
        out: &mut S,
        engines: &mut E,
    ) -> Result<(), RunEnd>
        requires { IsReady self.old }
        ensures engines { HandsOn run_refusal result (E.state engines.old) (E.state engines.new) }
        ensures asked { IfErr result (RefusesOnly (asked_texts (step_of step))) }
        ensures runs { RunsStep result (step_run (state_of self.old) (step_of step))
            (state_of self.new) (S.state out.old) (S.state out.new) }
        ensures ready { OnOk result (IsReady self.new) }
    {
        if self.steps >= MAX_STEPS {
            return Err(RunEnd::OutOfMemory);
        }
        self.begin(step, engines)?;
        self.run_jobs(out)
    }

    /// Writes the closing lines.
    pub fn close<S: Sink>(&self, out: &mut S) -> Result<(), LineEnd>
        requires { IsReady self.now }
        ensures { Writes is_line_fault result (S.state out.old) (S.state out.new)
            (lines_text (closing (state_of self.now))) }
    {
        put_model(self.alloc, self.world.model(), out)?;
        put_end(self.alloc, self.steps, self.jobs, self.events, out)
    }

    // Counts a step, takes a fact of the page, and lets the value of a push wait. The other steps
    // are not run yet, and no trace has one.
    fn begin<E: Engines>(&mut self, step: TraceStep, engines: &mut E) -> Result<(), RunEnd>
        requires steps { self.old.steps < MAX_STEPS }
        requires live { IsSome (seen self.old.world) }
        ensures state { OnOk result
            (state_of self.new ≡ begin_step (state_of self.old) (step_of step)) }
        ensures live { OnOk result (IsSome (seen self.new.world)) }
        ensures engines { HandsOn run_refusal result (E.state engines.old) (E.state engines.new) }
        ensures asked { IfErr result (RefusesOnly (asked_texts (step_of step))) }
        ensures unbegun { IfErr result IsUnbegun }
    {
        self.steps += 1;
        match step {
            TraceStep::Push(value) => {
                keep(&mut self.waiting.messages, value)?;
                Ok(())
            },
            TraceStep::Fact(fact) => take_fact(self.alloc, fact, &mut self.world, engines),
            TraceStep::Args(_) => Ok(()),
            TraceStep::Load { .. } => Ok(()),
            TraceStep::Vendor { .. } => Ok(()),
        }
    }

    // Takes the jobs of a step until none is left, at most `MAX_JOBS`.
    fn run_jobs<S: Sink>(&mut self, out: &mut S) -> Result<(), RunEnd>
        requires live { IsSome (seen self.old.world) }
        requires steps { self.old.steps ≤ MAX_STEPS }
        requires jobs { self.old.jobs + MAX_JOBS ≤ MAX_JOBS * self.old.steps }
        requires events { self.old.events ≤ self.old.jobs }
        ensures runs { RunsStep result (take_jobs MAX_JOBS (state_of self.old))
            (state_of self.new) (S.state out.old) (S.state out.new) }
        ensures ready { OnOk result (IsReady self.new) }
        ensures unrefused { IfErr result IsUnrefused }
    {
        for taken in 0..MAX_JOBS {
            let Some(job) = self.next_job()? else {
                return Ok(());
            };
            self.run_job(job, out)?;
        }
        if self.has_job() {
            return Err(RunEnd::JobLimit { step: self.steps });
        }
        Ok(())
    }

    // Whether a job waits.
    fn has_job(&self) -> bool
        ensures { result ≡ is_some (next_job (state_of self.now)) }
    {
        !self.waiting.own.is_empty()
            || !self.waiting.early.is_empty()
            || !self.waiting.deferred.is_empty()
            || !self.waiting.messages.is_empty()
    }

    // The next job, before the first `gtm.js` the two messages that initialise a page.
    fn next_job(&mut self) -> Result<Option<Job>, OutOfMemory>
        ensures next { IfOk result (λ next. MatchOption next
            ((next_job (state_of self.old) ≡ None) × (state_of self.new ≡ state_of self.old))
            (λ job. next_job (state_of self.old) ≡ Some (job_of job, state_of self.new))) }
        ensures world { self.new.world ≡ self.old.world }
    {
        if let Some(job) = self.waiting.own.pop_front() {
            return Ok(Some(job));
        }
        if let Some(job) = self.waiting.early.pop_front() {
            return Ok(Some(job));
        }
        if let Some(job) = self.waiting.deferred.pop_front() {
            return Ok(Some(job));
        }
        self.open_page()?;
        match self.waiting.messages.pop_front() {
            Some(message) => Ok(Some(Job::Pushed(message))),
            None => Ok(None),
        }
    }

    // Puts the two messages that initialise a page before its first `gtm.js`, once that is next.
    fn open_page(&mut self) -> Result<(), OutOfMemory>
        ensures state { OnOk result (state_of self.new ≡ opened (state_of self.old)) }
        ensures world { self.new.world ≡ self.old.world }
    {
        if !self.begun && first_begins(&self.waiting.messages) {
            keep_first(&mut self.waiting.messages, init_message(self.alloc)?)?;
            keep_first(&mut self.waiting.messages, consent_message(self.alloc)?)?;
            self.begun = true;
        }
        Ok(())
    }

    // Does a job, and writes its lines.
    fn run_job<S: Sink>(&mut self, job: Job, out: &mut S) -> Result<(), LineEnd>
        requires live { IsSome (seen self.old.world) }
        requires jobs { self.old.jobs < 2 ^ 63 }
        requires events { self.old.events ≤ self.old.jobs }
        ensures state { OnOk result
            (state_of self.new ≡ (job_step (state_of self.old) (job_of job)).state) }
        ensures lines { Writes is_line_fault result (S.state out.old) (S.state out.new)
            (lines_text (job_step (state_of self.old) (job_of job)).lines) }
        ensures live { OnOk result (IsSome (seen self.new.world)) }
    {
        match job {
            Job::Pushed(Message { value, group: _ }) => self.run_value(value, out),
        }
    }

    // Runs a command array, or takes a message, and writes the lines.
    fn run_value<S: Sink>(&mut self, value: Data, out: &mut S) -> Result<(), LineEnd>
        requires live { IsSome (seen self.old.world) }
        requires jobs { self.old.jobs < 2 ^ 63 }
        requires events { self.old.events ≤ self.old.jobs }
        ensures state { OnOk result
            (state_of self.new ≡ (take_value (state_of self.old) (tree_of value)).state) }
        ensures lines { Writes is_line_fault result (S.state out.old) (S.state out.new)
            (lines_text (take_value (state_of self.old) (tree_of value)).lines) }
        ensures live { OnOk result (IsSome (seen self.new.world)) }
    {
        if is_list(&value) {
            self.run_command(value, out)
        } else {
            self.run_message(value, out)
        }
    }

    // Merges a message, and writes its line and that of the event that it is.
    fn run_message<S: Sink>(&mut self, value: Data, out: &mut S) -> Result<(), LineEnd>
        requires live { IsSome (seen self.old.world) }
        requires jobs { self.old.jobs < 2 ^ 63 }
        requires events { self.old.events ≤ self.old.jobs }
        ensures state { OnOk result
            (state_of self.new ≡ (take_message (state_of self.old) (tree_of value)).state) }
        ensures lines { Writes is_line_fault result (S.state out.old) (S.state out.new)
            (lines_text (take_message (state_of self.old) (tree_of value)).lines) }
        ensures live { OnOk result (IsSome (seen self.new.world)) }
    {
        let name = name_of(self.alloc, &value)?;
        let taken = self.world.take(&value)?;
        self.jobs += 1;
        let ignored = !taken;
        put_message(self.alloc, value, ignored, out)?;
        count_event(self.alloc, &mut self.events, ignored, name, out)
    }

    // Runs a command array, and writes its line.
    fn run_command<S: Sink>(&mut self, value: Data, out: &mut S) -> Result<(), LineEnd>
        requires live { IsSome (seen self.old.world) }
        requires jobs { self.old.jobs < 2 ^ 63 }
        ensures state { OnOk result
            (state_of self.new ≡ (take_command (state_of self.old) (tree_of value)).state) }
        ensures lines { Writes is_line_fault result (S.state out.old) (S.state out.new)
            (lines_text (take_command (state_of self.old) (tree_of value)).lines) }
        ensures live { OnOk result (IsSome (seen self.new.world)) }
    {
        let ran = self.world.command(&value)?;
        self.jobs += 1;
        put_command(self.alloc, value, !ran, out)
    }
}

// The world before the first step: the container's two names are known.
fn first_world(alloc: Global, container: &Container) -> Result<World, OutOfMemory>
    ensures { IfOk result (λ world. seen world ≡ Some (start container.now).world) }
{
    let names = names_of(alloc, container)?;
    let mut world = World::new(alloc);
    world.fact(alloc, names)?;
    Ok(world)
}

// The container's two names, as a fact of the page.
fn names_of(alloc: Global, container: &Container) -> Result<PageFact, OutOfMemory>
    ensures { IfOk result (λ names. fact_of names
        ≡ ids container.now.public_id container.now.version_id) }
{
    let public_id = container.public_id.copy(alloc)?;
    let version_id = container.version_id.copy(alloc)?;
    Ok(PageFact::Ids {
        public_id,
        version_id,
    })
}

// Takes a fact of the page, with its addresses read by the engines.
fn take_fact<E: Engines>(
    alloc: Global,
    fact: PageFact,
    world: &mut World,
    engines: &mut E,
) -> Result<(), RunEnd>
    ensures taken { OnOk result
        (seen world.new ≡ option_map (after_fact (filled (fact_of fact))) (seen world.old)) }
    ensures engines { HandsOn run_refusal result (E.state engines.old) (E.state engines.new) }
    ensures asked { IfErr result (RefusesOnly (fact_texts (fact_of fact))) }
    ensures unbegun { IfErr result IsUnbegun }
{
    let filled = fill(alloc, fact, engines)?;
    world.fact(alloc, filled)?;
    Ok(())
}

fn is_list(value: &Data) -> bool
    ensures { result ≡ is_list (tree_of value.now) }
{
    match value {
        Data::List(_) => true,
        _ => false,
    }
}

// A copy of the text of the member `event`.
fn name_of(alloc: Global, message: &Data) -> Result<Option<Text>, OutOfMemory>
    ensures { IfOk result (λ name. name ≡ event_name (tree_of message.now)) }
{
    match event_name(message) {
        Some(name) => Ok(Some(name.copy(alloc)?)),
        None => Ok(None),
    }
}

// Counts an event and writes its line, where the message was not ignored and has a name.
fn count_event<S: Sink>(
    alloc: Global,
    events: &mut u64,
    ignored: bool,
    name: Option<Text>,
    out: &mut S,
) -> Result<(), LineEnd>
    requires { events.old < 2 ^ 63 }
    ensures count { OnOk result
        (events.new ≡ events.old + one_if (if ignored then None else name)) }
    ensures lines { Writes is_line_fault result (S.state out.old) (S.state out.new)
        (lines_text (event_lines (events.old + 1) (if ignored then None else name))) }
{
    match name {
        Some(name) if !ignored => {
            *events += 1;
            put_event(alloc, *events, name, out)
        },
        _ => Ok(()),
    }
}
