ghost use Rattle.std.specs.Prelude.{IsSome};
ghost use Rattle.page_world.specs.Known.{seen};
ghost use Rattle.gtm_variables.specs.Variables.{HasSoundVariables};

use export_model::Container;
use gtm_base::Text;
use gtm_data::Data;
use page_world::World;
use std::alloc::Global;

/// The values of variables at one event.
///
/// Each is computed when it is first asked for, and kept. After want of memory it is spent: every
/// later call answers that too, and changes nothing.
#[derive(Drop)]
pub struct Values<'a> {
    pub(crate) alloc: Global,
    pub container: &'a Container,
    pub world: &'a World,
    /// The name of the event.
    pub event: &'a Text,
    // What was computed so far, by places; empty before the first call.
    pub(crate) kept: Vec<Option<Data>>,
    pub(crate) spent: bool,
    ghost sound: { HasSoundVariables container.now },
    ghost told: { IsSome (seen world.now) },
}
