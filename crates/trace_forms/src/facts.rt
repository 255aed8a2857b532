ghost use Rattle.std.specs.Prelude.{◌≡◌, IfOk};
ghost use Rattle.gtm_data.specs.Facts.{global, returns};
ghost use Rattle.gtm_data.specs.Tree.{tree_of, whole};
ghost use Rattle.trace_forms.specs.Forms.{cookie_in, global_in, time_in};
ghost use Rattle.trace_forms.specs.Views.{reading_of};

use crate::kinds::{into_text, texts_in};
use crate::steps::{LineRead, TraceStep};
use gtm_base::OutOfMemory;
use gtm_data::{Data, PageFact};
use std::alloc::Global;

// The values of the cookie of this name.
pub(crate) fn read_cookie(alloc: Global, name: Data, values: Data) -> Result<LineRead, OutOfMemory>
    ensures { IfOk result (λ read. reading_of read ≡ cookie_in (tree_of name) (tree_of values)) }
{
    let (Data::Text(name), Data::List(items)) = (name, values) else {
        return Ok(LineRead::Bad(6));
    };
    match texts_in(alloc, items)? {
        Some(values) => Ok(LineRead::Step(TraceStep::Fact(PageFact::Cookie { name, values }))),
        None => Ok(LineRead::Bad(6)),
    }
}

// The value of the global variable of this key.
pub(crate) fn read_global(key: Data, value: Data) -> LineRead
    ensures { reading_of result ≡ global_in (λ name. global name (tree_of value)) (tree_of key) }
{
    match into_text(key) {
        Some(key) => LineRead::Step(TraceStep::Fact(PageFact::Global { key, value })),
        None => LineRead::Bad(6),
    }
}

// What the global function of this key returns.
pub(crate) fn read_returns(key: Data, value: Data) -> LineRead
    ensures { reading_of result ≡ global_in (λ name. returns name (tree_of value)) (tree_of key) }
{
    match into_text(key) {
        Some(key) => LineRead::Step(TraceStep::Fact(PageFact::Returns { key, value })),
        None => LineRead::Bad(6),
    }
}

// The time, where the value is a whole number from 0 on.
pub(crate) fn read_time(value: &Data) -> LineRead
    ensures { reading_of result ≡ time_in (tree_of value.now) }
{
    match value {
        Data::Whole(number) => time_of(*number),
        _ => LineRead::Bad(6),
    }
}

// The time of so many milliseconds, which has to be 0 or more.
fn time_of(number: i64) -> LineRead
    ensures { reading_of result ≡ time_in (whole number) }
{
    if number >= 0 {
        LineRead::Step(TraceStep::Fact(PageFact::Time(number)))
    } else {
        LineRead::Bad(6)
    }
}
