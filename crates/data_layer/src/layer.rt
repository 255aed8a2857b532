ghost use Rattle.std.specs.Prelude.{◌≡◌, not, IsErr, IfOk, IfSome, OnOk, OnErr, option_map, Some};
ghost use Rattle.std.specs.Prelude.{None};
ghost use Rattle.std.specs.Str.{chars};
ghost use Rattle.gtm_data.specs.Tree.{tree_of};
ghost use Rattle.data_layer.specs.Command.{is_ignored_command, after_command};
ghost use Rattle.data_layer.specs.Layer.{empty_layer, is_ignored, after_message, layer_value, seen};

use crate::commands::run;
use crate::taking::take;
use gtm_base::{Keyed, OutOfMemory};
use gtm_data::{Data, Members, get};
use std::alloc::Global;
use std::marker::Model;

/// The merged model, and the last value of each whole key. A contract sees both, or nothing once
/// memory was wanting.
#[derive(Drop)]
pub struct Layer {
    alloc: Global,
    model: Data,
    version_one: Members,
    spent: bool,
}

impl Model for Layer {
    ghost use Rattle.gtm_data.specs.declared.data.Data.{Data};
    ghost use Rattle.gtm_data.specs.contracts.data.Data as value;
    ghost use Rattle.std.specs.Prelude.{List, ℕ, Option};
    ghost use Rattle.std.specs.Coded.{coded_option, coded×, coded_list, coded_ℕ};

    ghost Value = { Option (Data × List (List ℕ × Data)) };

    ghost coded = { coded_option
        (coded× value.the_row.coded
        (coded_list (coded× (coded_list coded_ℕ) value.the_row.coded))) };

    ghost use Rattle.std.specs.Prelude.{Some, None, if◌then◌else◌};

    ghost view = { λ layer. if layer.spent then None else Some (layer.model, layer.version_one.pairs) };
}

impl Layer {
    /// The layer before the first message: an empty Map. Takes no memory.
    pub fn new(alloc: Global) -> Layer
        ensures { seen result ≡ Some empty_layer }
    {
        Layer {
            alloc,
            model: Data::Map(Keyed::new(alloc)),
            version_one: Keyed::new(alloc),
            spent: false,
        }
    }

    /// The merged model. Takes no memory.
    pub fn model(&self) -> &Data
        ensures { IfSome (seen self.now) (λ layer. tree_of result.now ≡ layer.model) }
    {
        &self.model
    }

    /// The value of a key: in version 1 the one that the last message with that whole key gave it,
    /// in any other version the one at the dotted path. Takes no memory.
    #[tactic(auto, using(gtm_data::proofs::Members::got))]
    pub fn get(&self, key: &str, version: u8) -> Option<&Data>
        ensures { IfSome (seen self.now)
            (λ layer. option_map (λ found. tree_of found.now) result
            ≡ layer_value (chars key.now) version layer) }
    {
        if version == 1 {
            self.version_one.get(key)
        } else {
            get(&self.model, key)
        }
    }

    /// Takes a message, and answers whether it was not ignored: whether it is a Map and none of its
    /// members would nest too deep.
    ///
    /// After want of memory the layer is spent: every later call of `take` answers that too and
    /// changes nothing, and nothing is said of what `model` and `get` then give.
    pub fn take(&mut self, message: &Data) -> Result<bool, OutOfMemory>
        ensures told { IfOk result (λ took. took ≡ not (is_ignored (tree_of message.now))) }
        ensures taken { OnOk result
            (seen self.new ≡ option_map (after_message (tree_of message.now)) (seen self.old)) }
        ensures spent { OnErr result (self.new ≡ None) }
        ensures stays_spent { self.old ≡ None → IsErr result }
    {
        if self.spent {
            return Err(OutOfMemory);
        }
        self.spent = true;
        let took = take(self.alloc, message, &mut self.model, &mut self.version_one)?;
        self.spent = false;
        Ok(took)
    }

    /// Runs a pushed List as a command array, and answers whether it was not ignored.
    ///
    /// Its first item is a text such as `a.b.push`: the last part between dots is a method, `push`,
    /// `pop`, `shift`, `unshift` or `reverse`, of the List at the path of the others, and the other
    /// items go with it. It is ignored where its first item is no text, the method is none of
    /// these, no List is at the path, or an item that it adds would nest over `MAX_DEPTH` deep. The
    /// values of version 1 stay.
    ///
    /// After want of memory the layer is spent, as after `take`.
    pub fn command(&mut self, list: &Data) -> Result<bool, OutOfMemory>
        ensures told { IfOk result
            (λ ran. IfSome (seen self.old)
            (λ layer. ran ≡ not (is_ignored_command (tree_of list.now) layer))) }
        ensures changed { OnOk result
            (seen self.new ≡ option_map (after_command (tree_of list.now)) (seen self.old)) }
        ensures spent { OnErr result (self.new ≡ None) }
        ensures stays_spent { self.old ≡ None → IsErr result }
    {
        if self.spent {
            return Err(OutOfMemory);
        }
        self.spent = true;
        let ran = run(self.alloc, list, &mut self.model)?;
        self.spent = false;
        Ok(ran)
    }
}
