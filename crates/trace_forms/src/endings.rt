ghost use Rattle.std.specs.Prelude.{◌≡◌};
ghost use Rattle.gtm_data.specs.Tree.{tree_of};
ghost use Rattle.trace_forms.specs.Forms.{ended};
ghost use Rattle.trace_forms.specs.Steps.{load, vendor};
ghost use Rattle.trace_forms.specs.Views.{reading_of};

use crate::kinds::{counted_in, truth_in};
use crate::steps::{LineRead, TraceStep};
use gtm_data::Data;

// How the load of this number ended.
pub(crate) fn read_load(number: &Data, ok: &Data) -> LineRead
    ensures { reading_of result ≡ ended load (tree_of number.now) (tree_of ok.now) }
{
    match (counted_in(number), truth_in(ok)) {
        (Some(number), Some(ok)) => LineRead::Step(TraceStep::Load { load: number, ok }),
        _ => LineRead::Bad(6),
    }
}

// How the start of this number ended, of a vendor's tag.
pub(crate) fn read_vendor(number: &Data, ok: &Data) -> LineRead
    ensures { reading_of result ≡ ended vendor (tree_of number.now) (tree_of ok.now) }
{
    match (counted_in(number), truth_in(ok)) {
        (Some(number), Some(ok)) => LineRead::Step(TraceStep::Vendor { start: number, ok }),
        _ => LineRead::Bad(6),
    }
}
