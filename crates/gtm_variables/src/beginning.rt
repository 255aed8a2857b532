ghost use Rattle.std.specs.Prelude.{◌≡◌, ℕ, IsSome, None};
ghost use Rattle.export_model.specs.Sound.{Sound};
ghost use Rattle.page_world.specs.Known.{seen};
ghost use Rattle.gtm_variables.specs.Kept.{IsSpent, kept_for, moment_of};
ghost use Rattle.gtm_variables.specs.Snapshot.{world_in};

use crate::Values;
use export_model::Container;
use gtm_base::Text;
use page_world::World;
use std::alloc::Global;

impl<'a> Values<'a> {
    /// Nothing is computed yet. Takes no memory.
    #[tactic(auto, using(crate::proofs::SoundVariables::sound_variables))]
    pub fn new(
        alloc: Global,
        container: &'a Container,
        world: &'a World,
        event: &'a Text,
    ) -> Values<'a>
        requires sound { Sound container.now }
        requires told { IsSome (seen world.now) }
        ensures moment { moment_of result ≡ record {
          container = container.now;
          world = world_in world.now;
          event = event.now;
        } }
        ensures kept { (at : ℕ) → kept_for result at ≡ None }
        ensures fresh { IsSpent result → ⊥ }
    {
        Values {
            alloc,
            container,
            world,
            event,
            kept: Vec::new(alloc),
            spent: false,
        }
    }
}
