ghost use Rattle.gtm_base.specs.Outside.{Writes};
ghost use Rattle.gtm_data.specs.Tree.{tree_of};
ghost use Rattle.replay_engine.specs.Run.{counts_of};
ghost use Rattle.run_log.specs.LineFault.{is_line_fault};
ghost use Rattle.run_log.specs.Lines.{message, command, event, model, finish, line_bytes};

use gtm_base::{Sink, Text};
use gtm_data::{Data, copy};
use run_log::{Line, LineEnd, put_line};
use std::alloc::Global;

/// Writes the line of a message.
pub fn put_message<S: Sink>(
    alloc: Global,
    value: Data,
    ignored: bool,
    out: &mut S,
) -> Result<(), LineEnd>
    ensures { Writes is_line_fault result (S.state out.old) (S.state out.new)
        (line_bytes (message (tree_of value) ignored)) }
{
    put_line(alloc, &Line::Message { value, ignored }, out)
}

/// Writes the line of a command array.
pub fn put_command<S: Sink>(
    alloc: Global,
    value: Data,
    ignored: bool,
    out: &mut S,
) -> Result<(), LineEnd>
    ensures { Writes is_line_fault result (S.state out.old) (S.state out.new)
        (line_bytes (command (tree_of value) ignored)) }
{
    put_line(alloc, &Line::Command { value, ignored }, out)
}

/// Writes the line of an event.
pub fn put_event<S: Sink>(
    alloc: Global,
    number: u64,
    name: Text,
    out: &mut S,
) -> Result<(), LineEnd>
    ensures { Writes is_line_fault result (S.state out.old) (S.state out.new)
        (line_bytes (event number name)) }
{
    let line = Line::Event {
        event: number,
        name,
    };
    put_line(alloc, &line, out)
}

/// Writes the line of the model.
pub fn put_model<S: Sink>(alloc: Global, value: &Data, out: &mut S) -> Result<(), LineEnd>
    ensures { Writes is_line_fault result (S.state out.old) (S.state out.new)
        (line_bytes (model (tree_of value.now))) }
{
    let value = copy(alloc, value)?;
    put_line(alloc, &Line::Model { value }, out)
}

/// Writes the last line. No tag starts yet.
pub fn put_end<S: Sink>(
    alloc: Global,
    steps: u64,
    jobs: u64,
    events: u64,
    out: &mut S,
) -> Result<(), LineEnd>
    ensures { Writes is_line_fault result (S.state out.old) (S.state out.new)
        (line_bytes (finish (counts_of steps jobs events))) }
{
    let end = Line::End {
        steps,
        jobs,
        events,
        starts: 0,
        ok: 0,
        fail: 0,
        denied: 0,
        faults: 0,
    };
    put_line(alloc, &end, out)
}
