ghost use Rattle.std.specs.Prelude.{◌≡◌, ℕ, IfOk, OnOk, OnErr, IsTrue};
ghost use Rattle.gtm_data.specs.Tree.{tree_of};
ghost use Rattle.page_world.specs.World.{WorldState};
ghost use Rattle.gtm_variables.specs.Calls.{is_map, with_call};
ghost use Rattle.gtm_variables.specs.Ends.{AsksIn};
ghost use Rattle.gtm_variables.specs.Snapshot.{world_in};

use gtm_base::Engines;
use gtm_data::Data;
use page_world::World;
use perm_model::{EntryError, Outcome};
use std::alloc::Global;

/// Enters the templates of variables.
pub trait TemplateCaller {
    ghost use Rattle.std.specs.Prelude.{ℕ};
    ghost use Rattle.page_world.specs.World.{WorldState};
    ghost use Rattle.gtm_variables.specs.Calls.{Templates};

    /// What the templates give and may ask, and the entries that were answered so far.
    ghost meaning: { Self → Templates };

    /// The worlds that it serves.
    ghost serves: { Self → WorldState → Type 0 };

    /// The variables that it serves.
    ghost knows: { Self → ℕ → Type 0 };

    /// Whether it still holds what was lent to it.
    ghost keeps: { Self → Self → Type 0 };

    /// Enters the template of the variable at a place, with its fields, and answers how that ended.
    fn call<E: Engines>(
        &mut self,
        alloc: Global,
        world: &World,
        engines: &mut E,
        variable: u32,
        fields: &Data,
    ) -> Result<Outcome, EntryError>
        requires world { serves self.old (world_in world.now) }
        requires variable { knows self.old variable }
        requires fields { IsTrue (is_map (tree_of fields.now)) }
        ensures outcome { IfOk result (λ outcome. outcome
            ≡ (meaning self.old).outcome variable (world_in world.now) (tree_of fields.now)) }
        ensures called { OnOk result
            (meaning self.new ≡ with_call variable (tree_of fields.now) (meaning self.old)) }
        ensures not_called { OnErr result (meaning self.new ≡ meaning self.old) }
        ensures serves { (w : WorldState) → serves self.old w → serves self.new w }
        ensures knows { (at : ℕ) → knows self.old at → knows self.new at }
        ensures keeps { keeps self.old self.new }
        ensures asks { AsksIn
            ((meaning self.old).texts variable (world_in world.now) (tree_of fields.now))
            result (E.state engines.old) (E.state engines.new) };

    ghost keeps_start: { (a : Self) → keeps a a };

    ghost keeps_chain: { (a b c : Self) → keeps a b → keeps b c → keeps a c };
}
