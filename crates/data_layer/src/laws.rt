ghost use Rattle.std.specs.Prelude.{◌≡◌, ℕ, List, ◌++◌, Some};
ghost use Rattle.std.specs.Option.{option_or};
ghost use Rattle.gtm_data.specs.Distinct.{Distinct, DistinctEntries};
ghost use Rattle.gtm_data.specs.Paths.{Step, member};
ghost use Rattle.gtm_data.specs.Tree.{Tree, Entries};
ghost use Rattle.data_layer.specs.After.{After, keys, new_keys};
ghost use Rattle.data_layer.specs.Command.{Command, command_in, commanded, after_command};
ghost use Rattle.data_layer.specs.Command.{HasListAt, AfterCommand};
ghost use Rattle.data_layer.specs.Layer.{LayerState, DistinctLayer, empty_layer, after_message};
ghost use Rattle.data_layer.specs.Layer.{version_one_after};
ghost use Rattle.data_layer.specs.Merge.{merge};

/// A law, with nothing to call: path by path, the merge of a tree into another is what `After` says
/// of it.
pub fn merge_goes_by_paths()
    ensures { (n m : Tree) → Distinct n → After n m (merge n m) }
{}

/// A law, with nothing to call: no other tree is that too, among those in which no Map has a key
/// twice.
pub fn paths_determine_the_merge()
    ensures { (n m r s : Tree) → Distinct r → Distinct s → After n m r → After n m s → r ≡ s }
{}

/// A law, with nothing to call: the merge gives no Map a key twice.
pub fn merge_keeps_keys_distinct()
    ensures { (n m : Tree) → Distinct n → Distinct m → Distinct (merge n m) }
{}

/// A law, with nothing to call: in version 1 a whole key has the value that the message gives it,
/// or else the one from before; and the keys stand as before, with the new ones behind them.
pub fn version_one_keeps_the_last_value()
    ensures value { (name : List ℕ) (message old : Entries) → DistinctEntries message
        → member name (version_one_after message old)
        ≡ option_or (member name message) (member name old) }
    ensures keys { (message old : Entries) → DistinctEntries message
        → keys (version_one_after message old) ≡ keys old ++ new_keys (keys old) (keys message) }
{}

/// A law, with nothing to call: a layer starts with no key twice, and no message gives it one.
pub fn messages_keep_keys_distinct()
    ensures empty { DistinctLayer empty_layer }
    ensures kept { (message : Tree) (layer : LayerState) → Distinct message → DistinctLayer layer
        → DistinctLayer (after_message message layer) }
{}

/// A law, with nothing to call: path by path, what a command makes of a model is what
/// `AfterCommand` says: another List at its path, and every other path as it was.
pub fn commands_go_by_paths()
    ensures { (pushed model changed : Tree) (command : Command) → command_in pushed ≡ Some command
        → commanded pushed model ≡ Some changed → AfterCommand command model changed }
{}

/// A law, with nothing to call: no other tree has this List at this path and is else as it was,
/// among those in which no Map has a key twice.
pub fn paths_determine_the_command()
    ensures { (path : List Step) (items : List Tree) (m r s : Tree) → Distinct r → Distinct s
        → HasListAt path items m r → HasListAt path items m s → r ≡ s }
{}

/// A law, with nothing to call: no command gives a Map of the layer a key twice.
pub fn commands_keep_keys_distinct()
    ensures { (pushed : Tree) (layer : LayerState) → Distinct pushed → DistinctLayer layer
        → DistinctLayer (after_command pushed layer) }
{}
