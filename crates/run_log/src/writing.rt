ghost use Rattle.std.specs.Prelude.{◌≡◌, ◌++◌, ◌∷◌, [], codes, decimal, IsTrue, OnOk, IfOk};
ghost use Rattle.std.specs.Prelude.{IsErrOf};
ghost use Rattle.gtm_base.specs.Ascii.{is_all_ascii};
ghost use Rattle.gtm_base.specs.Outside.{Writes};
ghost use Rattle.run_log.specs.LineFault.{is_line_fault};
ghost use Rattle.run_log.specs.LineOf.{line_of};
ghost use Rattle.gtm_data.specs.JsonText.{json_text};
ghost use Rattle.gtm_data.specs.Tree.{tree_of};
ghost use Rattle.run_log.specs.Lines.{line_text, line_bytes, ignored_word};

use crate::Line;
use gtm_base::{OutOfMemory, Sink, SinkFailed, Text, put};
use gtm_data::{Data, write_json, write_quoted};
use std::alloc::Global;

// Most lines have fewer bytes.
const ROOM: usize = 256;

/// Why a line was not written.
#[derive(Clone, Copy, Debug, PartialEq, Eq)]
pub enum LineEnd {
    /// Memory was wanting. Nothing was written.
    OutOfMemory,
    /// The sink failed. It took a front of the line.
    SinkFault,
}

impl From<OutOfMemory> for LineEnd {
    ghost use Rattle.std.specs.Prelude.{◌≡◌};
    ghost use Rattle.run_log.specs.declared.writing.LineEnd.TheVariants.{OutOfMemory};

    ghost from_gives = { λ _ end. end ≡ OutOfMemory };

    fn from(_: OutOfMemory) -> Self {
        LineEnd::OutOfMemory
    }
}

/// Writes a line with its LF, by one `put`.
///
/// `SinkFault` comes only with a rise of the sink's count.
#[tactic(auto, unfolding(crate::specs::Lines::line_bytes))]
pub fn put_line<S: Sink>(alloc: Global, line: &Line, out: &mut S) -> Result<(), LineEnd>
    ensures out { Writes is_line_fault result (S.state out.old) (S.state out.new)
        (line_bytes (line_of line.now)) }
    ensures memory { IsErrOf result LineEnd.OutOfMemory → S.state out.new ≡ S.state out.old }
{
    let text = whole_line(alloc, line)?;
    match put(out, text.as_str().as_bytes()) {
        Ok(()) => Ok(()),
        Err(SinkFailed) => Err(LineEnd::SinkFault),
    }
}

fn whole_line(alloc: Global, line: &Line) -> Result<Text, OutOfMemory>
    ensures { IfOk result (λ text. text ≡ line_text (line_of line.now) ++ 10 ∷ []) }
{
    let mut text = Text::with_room(alloc, ROOM)?;
    write_line(&mut text, line)?;
    text.push('\n')?;
    Ok(text)
}

fn write_line(text: &mut Text, line: &Line) -> Result<(), OutOfMemory>
    ensures { OnOk result (text.new ≡ text.old ++ line_text (line_of line.now)) }
{
    match line {
        Line::Message { value, ignored } => write_job(text, "message ", value, *ignored)?,
        Line::Command { value, ignored } => write_job(text, "command ", value, *ignored)?,
        Line::Event { event, name } => {
            write_count(text, "event ", *event)?;
            text.push_word(" ")?;
            write_quoted(text, name.as_str())?;
        },
        Line::Model { value } => {
            text.push_word("model ")?;
            write_json(text, value)?;
        },
        Line::End {
            steps,
            jobs,
            events,
            starts,
            ok,
            fail,
            denied,
            faults,
        } => {
            write_count(text, "end steps=", *steps)?;
            write_count(text, " jobs=", *jobs)?;
            write_count(text, " events=", *events)?;
            write_count(text, " starts=", *starts)?;
            write_count(text, " ok=", *ok)?;
            write_count(text, " fail=", *fail)?;
            write_count(text, " denied=", *denied)?;
            write_count(text, " faults=", *faults)?;
        },
    }
    Ok(())
}

// A word and a value, with ` ignored` behind where it was ignored.
fn write_job(text: &mut Text, word: &str, value: &Data, ignored: bool) -> Result<(), OutOfMemory>
    requires { IsTrue (is_all_ascii word.now) }
    ensures { OnOk result
        (text.new ≡ text.old ++ word.now ++ json_text (tree_of value.now) ++ ignored_word ignored) }
{
    text.push_word(word)?;
    write_json(text, value)?;
    if ignored {
        text.push_word(" ignored")?;
    }
    Ok(())
}

// A word, and a number in digits.
fn write_count(text: &mut Text, word: &str, count: u64) -> Result<(), OutOfMemory>
    requires { IsTrue (is_all_ascii word.now) }
    ensures { OnOk result (text.new ≡ text.old ++ word.now ++ decimal count) }
{
    text.push_word(word)?;
    text.push_unsigned(count)
}
