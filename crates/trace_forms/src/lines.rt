ghost use Rattle.std.specs.Prelude.{◌≡◌, IfOk};
ghost use Rattle.gtm_data.specs.Json.{json_of};
ghost use Rattle.trace_forms.specs.Lines.{is_blank, line_of, reading_of_tree};
ghost use Rattle.trace_forms.specs.Views.{reading_of};

use crate::forms::read_form;
use crate::steps::{LineRead, TraceStep};
use gtm_base::OutOfMemory;
use gtm_data::{DataEnd, TextData, member_or_data_of};
use json::Scratch;
use std::alloc::Global;

/// What a line of a trace says, without its LF. `Bad` tells the least rule that it breaks: 2 it is
/// no JSON text; 3 a number is not whole, or lies outside of -9007199254740991 to 9007199254740991;
/// 4 it nests over 64 Lists and Maps deep; 5 it has none of the forms, or a page has a member that
/// is not listed; 6 a member is of another kind; 7 it sets the default of consent for regions.
/// Fails where memory is wanting. The scratch is memory that is lent to one line after another.
pub fn read_line(alloc: Global, scratch: &mut Scratch, text: &[u8]) -> Result<LineRead, OutOfMemory>
    ensures { IfOk result (λ read. reading_of read ≡ line_of text.now) }
{
    if is_blank(text) {
        return Ok(LineRead::Blank);
    }
    read_text(alloc, scratch, text)
}

// Whether it has spaces, tabs and CRs alone.
fn is_blank(text: &[u8]) -> bool
    ensures { result ≡ is_blank text.now }
{
    text.iter()
        .all(|b| *b == b' ' || *b == b'\t' || *b == b'\r')
}

// What a line says that is not blank. Most lines are pushes, for which no Map is made.
fn read_text(alloc: Global, scratch: &mut Scratch, text: &[u8]) -> Result<LineRead, OutOfMemory>
    ensures { IfOk result (λ read. reading_of read ≡ reading_of_tree (json_of text.now)) }
{
    match member_or_data_of(alloc, scratch, "push", text) {
        Ok(Some(TextData::Member(value))) => Ok(LineRead::Step(TraceStep::Push(value))),
        Ok(Some(TextData::Whole(data))) => read_form(alloc, data),
        Ok(None) => Ok(LineRead::Bad(2)),
        Err(DataEnd::OutOfMemory) => Err(OutOfMemory),
        Err(DataEnd::NotWhole { .. }) => Ok(LineRead::Bad(3)),
        Err(DataEnd::TooDeep { .. }) => Ok(LineRead::Bad(4)),
    }
}
