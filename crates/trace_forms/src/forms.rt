ghost use Rattle.std.specs.Prelude.{◌≡◌, IfOk, IsTrue};
ghost use Rattle.gtm_base.specs.Ascii.{is_all_ascii};
ghost use Rattle.gtm_data.specs.Tree.{tree_of, entries_of, object};
ghost use Rattle.trace_forms.specs.Forms.{form_of, single, pair, are_keys};
ghost use Rattle.trace_forms.specs.Views.{reading_of};

use crate::arguments::read_args;
use crate::endings::{read_load, read_vendor};
use crate::facts::{read_cookie, read_global, read_returns, read_time};
use crate::pages::read_page;
use crate::steps::{LineRead, TraceStep};
use gtm_base::{OutOfMemory, Text};
use gtm_data::{Data, Members};
use std::alloc::Global;

// What a line of this value says.
pub(crate) fn read_form(alloc: Global, value: Data) -> Result<LineRead, OutOfMemory>
    ensures { IfOk result (λ read. reading_of read ≡ form_of (tree_of value)) }
{
    match value {
        Data::Map(members) => read_members(alloc, members),
        _ => Ok(LineRead::Bad(5)),
    }
}

// What a line says that has these members.
fn read_members(alloc: Global, members: Members) -> Result<LineRead, OutOfMemory>
    ensures { IfOk result (λ read. reading_of read ≡ form_of (object (entries_of members.pairs))) }
{
    let mut pairs = members.pairs;
    let Some((key, value)) = pairs.pop() else {
        return Ok(LineRead::Bad(5));
    };
    let Some((first, before)) = pairs.pop() else {
        return read_single(alloc, &key, value);
    };
    if pairs.is_empty() {
        read_pair(alloc, &first, before, &key, value)
    } else {
        Ok(LineRead::Bad(5))
    }
}

// What a line says that has this one member.
fn read_single(alloc: Global, key: &Text, value: Data) -> Result<LineRead, OutOfMemory>
    ensures { IfOk result (λ read. reading_of read ≡ single key.now (tree_of value)) }
{
    if key.is_word("push") {
        return Ok(LineRead::Step(TraceStep::Push(value)));
    }
    if key.is_word("args") {
        return Ok(read_args(value));
    }
    if key.is_word("page") {
        return Ok(read_page(value));
    }
    if key.is_word("time") {
        return Ok(read_time(&value));
    }
    Ok(LineRead::Bad(5))
}

// What a line says that has these two members.
fn read_pair(
    alloc: Global,
    first: &Text,
    value: Data,
    second: &Text,
    other: Data,
) -> Result<LineRead, OutOfMemory>
    ensures { IfOk result
        (λ read. reading_of read ≡ pair first.now (tree_of value) second.now (tree_of other)) }
{
    if are_keys(first, second, "load", "ok") {
        return Ok(read_load(&value, &other));
    }
    if are_keys(first, second, "ok", "vendor") {
        return Ok(read_vendor(&other, &value));
    }
    if are_keys(first, second, "cookie", "values") {
        return read_cookie(alloc, value, other);
    }
    if are_keys(first, second, "global", "value") {
        return Ok(read_global(value, other));
    }
    if are_keys(first, second, "global", "returns") {
        return Ok(read_returns(value, other));
    }
    Ok(LineRead::Bad(5))
}

// Whether the two keys are these words of ASCII characters.
fn are_keys(first: &Text, second: &Text, key: &str, other: &str) -> bool
    requires key { IsTrue (is_all_ascii key.now) }
    requires other { IsTrue (is_all_ascii other.now) }
    ensures { result ≡ are_keys first.now second.now key.now other.now }
{
    first.is_word(key) && second.is_word(other)
}
