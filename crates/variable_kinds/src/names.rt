ghost use Rattle.std.specs.Prelude.{IsSome};
ghost use Rattle.data_layer.specs.Layer.{seen};

use data_layer::Layer;
use export_model::Container;
use gtm_base::Text;
use gtm_data::Data;
use page_world::Page;
use std::alloc::Global;

/// What names stand for at a moment, as far as the values of variables are kept.
#[derive(Drop)]
pub struct Names<'a> {
    pub alloc: Global,
    pub container: &'a Container,
    pub page: &'a Page,
    /// A layer that is not spent.
    pub layer: &'a Layer,
    /// The name of the event.
    pub event: &'a Text,
    /// The values of variables by their places, as far as they are known.
    pub kept: &'a [Option<Data>],
    ghost told: { IsSome (seen layer.now) },
}
