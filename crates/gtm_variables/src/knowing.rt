ghost use Rattle.std.specs.Prelude.{◌≡◌};
ghost use Rattle.variable_kinds.specs.Moment as names;
ghost use Rattle.gtm_variables.specs.Kept.{moment_of};

use crate::Values;
use variable_kinds::Names;

/// What names stand for, as far as the values of variables are kept. Takes no memory.
pub fn names<'b>(values: &'b Values) -> Names<'b>
    ensures moment { names.moment_of result ≡ moment_of values.now }
    ensures kept { result.kept.now ≡ values.now.kept.items }
{
    Names {
        alloc: values.alloc,
        container: values.container,
        page: values.world.page(),
        layer: values.world.layer(),
        event: values.event,
        kept: values.kept.as_slice(),
    }
}
