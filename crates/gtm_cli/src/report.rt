ghost use Rattle.std.specs.Prelude.{◌≡◌, ◌⊎◌, ◌++◌, ◌∷◌, [], OnOk, IfOk, IsTrue, encode_utf8_all};
ghost use Rattle.std.specs.Str.{chars};
ghost use Rattle.gtm_base.specs.Ascii.{is_all_ascii};
ghost use Rattle.gtm_cli.specs.Report.{TookLine, TookText, status_text, unread_text, refusal_text};
ghost use Rattle.gtm_cli.specs.Report.{bad_line_text, limit_text, unwritten_text, memory_text};
ghost use Rattle.gtm_cli.specs.Report.{usage_text, line_of_text, engine_text};

use gtm_base::{OutOfMemory, Sink, Status, Text, put};
use gtm_data::write_quoted;
use replay_engine::MAX_JOBS;
use std::alloc::Global;

/// Writes the one line of a status, with the name of the file that was opened last, and gives the
/// status.
///
/// Where memory is wanting for the line, that is the status. A failure of `err` changes nothing.
pub fn report<S: Sink>(alloc: Global, name: &str, status: Status, err: &mut S) -> Status
    requires { (S.state err.old).faults ≡ 0 }
    ensures status { (result ≡ status) ⊎ (result ≡ Status.OutOfMemory) }
    ensures line { TookLine (chars name.now) result (S.state err.old) (S.state err.new) }
{
    match whole_line(alloc, name, &status) {
        Ok(line) => {
            put_text(&line, err);
            status
        },
        Err(OutOfMemory) => {
            put_out_of_memory(err);
            Status::OutOfMemory
        },
    }
}

fn put_text<S: Sink>(text: &Text, err: &mut S)
    requires { (S.state err.old).faults ≡ 0 }
    ensures { TookText (encode_utf8_all text.now) (S.state err.old) (S.state err.new) }
{
    let _ = put(err, text.as_str().as_bytes());
}

#[tactic(auto, unfolding(crate::specs::Report::memory_text))]
fn put_out_of_memory<S: Sink>(err: &mut S)
    requires { (S.state err.old).faults ≡ 0 }
    ensures { TookText (line_of_text memory_text) (S.state err.old) (S.state err.new) }
{
    put_word(err, "gtm_replay: out of memory\n");
}

/// Writes how the program is used.
#[tactic(auto, unfolding(crate::specs::Report::usage_text))]
pub fn put_usage<S: Sink>(err: &mut S)
    requires { (S.state err.old).faults ≡ 0 }
    ensures { TookText (line_of_text usage_text) (S.state err.old) (S.state err.new) }
{
    put_word(
        err,
        "usage: gtm_replay run EXPORT TRACE | gtm_replay self N\n",
    );
}

fn put_word<S: Sink>(err: &mut S, word: &str)
    requires word { IsTrue (is_all_ascii word.now) }
    requires err { (S.state err.old).faults ≡ 0 }
    ensures { TookText (encode_utf8_all word.now) (S.state err.old) (S.state err.new) }
{
    let _ = put(err, word.as_bytes());
}

// The line of a status: empty where all was done.
fn whole_line(alloc: Global, name: &str, status: &Status) -> Result<Text, OutOfMemory>
    ensures { IfOk result (λ text. text ≡ status_text (chars name.now) status.now) }
{
    let mut text = Text::new(alloc);
    match status {
        Status::Done => return Ok(text),
        Status::Usage => write_usage(&mut text)?,
        Status::FileFault => write_unread(&mut text, name)?,
        Status::ExportRefused { rule, path } => write_refusal(&mut text, *rule, path.as_str())?,
        Status::TraceRefused { line, rule } => write_bad_line(&mut text, *line, *rule)?,
        Status::EngineRefused { text: refused } => write_engine(&mut text, refused.as_str())?,
        Status::JobLimit { step } => write_limit(&mut text, *step)?,
        Status::SinkFault => write_unwritten(&mut text)?,
        Status::OutOfMemory => write_out_of_memory(&mut text)?,
    }
    text.push('\n')?;
    Ok(text)
}

#[tactic(auto, unfolding(crate::specs::Report::usage_text))]
fn write_usage(text: &mut Text) -> Result<(), OutOfMemory>
    ensures { OnOk result (text.new ≡ text.old ++ usage_text) }
{
    text.push_word("usage: gtm_replay run EXPORT TRACE | gtm_replay self N")
}

fn write_unread(text: &mut Text, name: &str) -> Result<(), OutOfMemory>
    ensures { OnOk result (text.new ≡ text.old ++ unread_text (chars name.now)) }
{
    text.push_word("gtm_replay: cannot read ")?;
    write_quoted(text, name)?;
    Ok(())
}

fn write_refusal(text: &mut Text, rule: u8, path: &str) -> Result<(), OutOfMemory>
    ensures { OnOk result (text.new ≡ text.old ++ refusal_text rule (chars path.now)) }
{
    text.push_word("gtm_replay: export: rule ")?;
    text.push_unsigned(rule as u64)?;
    text.push_word(" at ")?;
    write_quoted(text, path)?;
    Ok(())
}

fn write_bad_line(text: &mut Text, line: u64, rule: u8) -> Result<(), OutOfMemory>
    ensures { OnOk result (text.new ≡ text.old ++ bad_line_text line rule) }
{
    text.push_word("gtm_replay: trace: line ")?;
    text.push_unsigned(line)?;
    text.push_word(" rule ")?;
    text.push_unsigned(rule as u64)?;
    Ok(())
}

fn write_engine(text: &mut Text, refused: &str) -> Result<(), OutOfMemory>
    ensures { OnOk result (text.new ≡ text.old ++ engine_text (chars refused.now)) }
{
    text.push_word("gtm_replay: engine refused ")?;
    write_quoted(text, refused)?;
    Ok(())
}

fn write_limit(text: &mut Text, step: u64) -> Result<(), OutOfMemory>
    ensures { OnOk result (text.new ≡ text.old ++ limit_text step) }
{
    text.push_word("gtm_replay: step ")?;
    text.push_unsigned(step)?;
    text.push_word(" needs job ")?;
    text.push_unsigned(MAX_JOBS + 1)?;
    Ok(())
}

#[tactic(auto, unfolding(crate::specs::Report::unwritten_text))]
fn write_unwritten(text: &mut Text) -> Result<(), OutOfMemory>
    ensures { OnOk result (text.new ≡ text.old ++ unwritten_text) }
{
    text.push_word("gtm_replay: cannot write")
}

#[tactic(auto, unfolding(crate::specs::Report::memory_text))]
fn write_out_of_memory(text: &mut Text) -> Result<(), OutOfMemory>
    ensures { OnOk result (text.new ≡ text.old ++ memory_text) }
{
    text.push_word("gtm_replay: out of memory")
}
