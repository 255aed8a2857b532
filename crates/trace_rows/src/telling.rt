use gtm_base::{OutOfMemory, Text, Texts};
use gtm_data::{Data, PageFact, json_text};
use json::Scratch;
use std::alloc::Global;
use trace_forms::{LineRead, TraceStep, read_line};

/// What a line says, as a text: `blank`, `bad` and the rule, or the step.
pub fn told(alloc: Global, line: &[u8]) -> Result<Text, OutOfMemory> {
    let mut scratch = Scratch::new(alloc);
    match read_line(alloc, &mut scratch, line)? {
        LineRead::Blank => Text::from_str(alloc, "blank"),
        LineRead::Bad(rule) => numbered(alloc, "bad ", rule as u64),
        LineRead::Step(step) => step_text(alloc, &step),
    }
}

/// A step as a text.
pub fn step_text(alloc: Global, step: &TraceStep) -> Result<Text, OutOfMemory> {
    match step {
        TraceStep::Fact(fact) => fact_text(alloc, fact),
        TraceStep::Push(value) => valued(alloc, "push", "", value),
        TraceStep::Args(value) => valued(alloc, "args", "", value),
        TraceStep::Load { load, ok } => ended(alloc, "load ", *load, *ok),
        TraceStep::Vendor { start, ok } => ended(alloc, "vendor ", *start, *ok),
    }
}

fn fact_text(alloc: Global, fact: &PageFact) -> Result<Text, OutOfMemory> {
    match fact {
        PageFact::Page {
            url,
            referrer,
            title,
            charset,
            region,
            ..
        } => page_text(
            alloc,
            &[
                (" url=", url),
                (" referrer=", referrer),
                (" title=", title),
                (" charset=", charset),
                (" region=", region),
            ],
        ),
        PageFact::Cookie { name, values } => cookie_text(alloc, name, values),
        PageFact::Global { key, value } => valued(alloc, "global ", key.as_str(), value),
        PageFact::Returns { key, value } => valued(alloc, "returns ", key.as_str(), value),
        PageFact::Time(ms) => timed(alloc, *ms),
        PageFact::Ids { .. } => Text::from_str(alloc, "ids"),
    }
}

fn page_text(alloc: Global, members: &[(&str, &Option<Text>)]) -> Result<Text, OutOfMemory> {
    let mut text = Text::from_str(alloc, "page")?;
    for (key, value) in members {
        push_member(&mut text, key, value)?;
    }
    Ok(text)
}

fn push_member(text: &mut Text, key: &str, value: &Option<Text>) -> Result<(), OutOfMemory> {
    match value {
        Some(value) => {
            text.push_str(key)?;
            text.push_str(value.as_str())
        },
        None => Ok(()),
    }
}

fn cookie_text(alloc: Global, name: &Text, values: &Texts) -> Result<Text, OutOfMemory> {
    let mut text = Text::from_str(alloc, "cookie ")?;
    text.push_str(name.as_str())?;
    text.push(' ')?;
    for value in values.as_slice() {
        text.push_str(value.as_str())?;
        text.push('|')?;
    }
    Ok(text)
}

fn valued(alloc: Global, word: &str, key: &str, value: &Data) -> Result<Text, OutOfMemory> {
    let mut text = Text::from_str(alloc, word)?;
    text.push_str(key)?;
    text.push(' ')?;
    text.push_str(json_text(alloc, value)?.as_str())?;
    Ok(text)
}

fn ended(alloc: Global, word: &str, number: u64, ok: bool) -> Result<Text, OutOfMemory> {
    let mut text = numbered(alloc, word, number)?;
    text.push_str(if ok { " true" } else { " false" })?;
    Ok(text)
}

fn numbered(alloc: Global, word: &str, number: u64) -> Result<Text, OutOfMemory> {
    let mut text = Text::from_str(alloc, word)?;
    text.push_unsigned(number)?;
    Ok(text)
}

fn timed(alloc: Global, ms: i64) -> Result<Text, OutOfMemory> {
    let mut text = Text::from_str(alloc, "time ")?;
    text.push_str(json_text(alloc, &Data::Whole(ms))?.as_str())?;
    Ok(text)
}
