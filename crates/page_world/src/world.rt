ghost use Rattle.std.specs.Prelude.{◌≡◌, not, IsErr, IfOk, IfSome, OnOk, OnErr, option_map, Some};
ghost use Rattle.std.specs.Prelude.{None};
ghost use Rattle.gtm_data.specs.Facts.{fact_of};
ghost use Rattle.gtm_data.specs.Tree.{tree_of};
ghost use Rattle.data_layer.specs.Command.{is_ignored_command, after_command};
ghost use Rattle.data_layer.specs.Layer as layer;
ghost use Rattle.data_layer.specs.Layer.{is_ignored, after_message};
ghost use Rattle.page_world.specs.Known.{page_of, seen};
ghost use Rattle.page_world.specs.World.{after_fact, empty_world, on_layer};

use crate::Page;
use crate::facts::take_fact;
use data_layer::Layer;
use gtm_base::OutOfMemory;
use gtm_data::{Data, PageFact};
use std::alloc::Global;
use std::marker::Model;

/// What is known of a page, and its data layer. A contract sees both, or nothing once memory was
/// wanting.
#[derive(Drop)]
pub struct World {
    page: Page,
    layer: Layer,
    spent: bool,
}

impl Model for World {
    ghost use Rattle.std.specs.Prelude.{Option, Some, None, if◌then◌else◌};
    ghost use Rattle.std.specs.Coded.{codes};
    ghost use Rattle.gtm_data.specs.contracts.data.Data as value;
    ghost use Rattle.page_world.specs.contracts.page.Page as known;
    ghost use Rattle.page_world.specs.Known.{Known};

    ghost Value = { Option Known };

    ghost coded = { Prim.hlevel (codes, value.the_row.coded, known.the_row.coded) };

    ghost view = { λ world.
        if world.spent then None else Some (record { page = world.page; layer = world.layer }) };
}

impl World {
    /// The world before the first fact and the first message. Takes no memory.
    pub fn new(alloc: Global) -> World
        ensures { seen result ≡ Some empty_world }
    {
        World {
            page: Page::new(alloc),
            layer: Layer::new(alloc),
            spent: false,
        }
    }

    /// What is known of the page. Takes no memory.
    pub fn page(&self) -> &Page
        ensures { IfSome (seen self.now) (λ world. page_of result.now ≡ world.page) }
    {
        &self.page
    }

    /// The data layer. Takes no memory.
    pub fn layer(&self) -> &Layer
        ensures { IfSome (seen self.now) (λ world. layer.seen result.now ≡ Some world.layer) }
    {
        &self.layer
    }

    /// The merged model of the data layer. Takes no memory.
    pub fn model(&self) -> &Data
        ensures { IfSome (seen self.now) (λ world. tree_of result.now ≡ world.layer.model) }
    {
        self.layer.model()
    }

    /// Takes a fact of the page.
    ///
    /// After want of memory the world is spent: every later call of `fact`, `take` and `command`
    /// answers that too and changes nothing, and nothing is said of what the other calls then give.
    pub fn fact(&mut self, alloc: Global, fact: PageFact) -> Result<(), OutOfMemory>
        ensures changed { OnOk result
            (seen self.new ≡ option_map (after_fact (fact_of fact)) (seen self.old)) }
        ensures spent { OnErr result (self.new ≡ None) }
        ensures stays_spent { self.old ≡ None → IsErr result }
    {
        if self.spent {
            return Err(OutOfMemory);
        }
        self.spent = true;
        take_fact(alloc, fact, &mut self.page)?;
        self.spent = false;
        Ok(())
    }

    /// Takes a message of the data layer, and answers whether it was not ignored, as
    /// `Layer::take` does.
    ///
    /// After want of memory the world is spent, as after `fact`.
    pub fn take(&mut self, message: &Data) -> Result<bool, OutOfMemory>
        ensures told { IfOk result (λ took. took ≡ not (is_ignored (tree_of message.now))) }
        ensures taken { OnOk result
            (seen self.new
            ≡ option_map (on_layer (after_message (tree_of message.now))) (seen self.old)) }
        ensures spent { OnErr result (self.new ≡ None) }
        ensures stays_spent { self.old ≡ None → IsErr result }
    {
        if self.spent {
            return Err(OutOfMemory);
        }
        self.spent = true;
        let took = self.layer.take(message)?;
        self.spent = false;
        Ok(took)
    }

    /// Runs a pushed List as a command array on the data layer, and answers whether it was not
    /// ignored, as `Layer::command` does.
    ///
    /// After want of memory the world is spent, as after `fact`.
    pub fn command(&mut self, list: &Data) -> Result<bool, OutOfMemory>
        ensures told { IfOk result
            (λ ran. IfSome (seen self.old)
            (λ world. ran ≡ not (is_ignored_command (tree_of list.now) world.layer))) }
        ensures changed { OnOk result
            (seen self.new
            ≡ option_map (on_layer (after_command (tree_of list.now))) (seen self.old)) }
        ensures spent { OnErr result (self.new ≡ None) }
        ensures stays_spent { self.old ≡ None → IsErr result }
    {
        if self.spent {
            return Err(OutOfMemory);
        }
        self.spent = true;
        let ran = self.layer.command(list)?;
        self.spent = false;
        Ok(ran)
    }
}
