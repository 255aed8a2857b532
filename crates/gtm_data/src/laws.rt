ghost use Rattle.std.specs.Prelude.{◌≡◌, ◌≢◌, ◌≤◌, ◌↔◌, ℕ, List, [], Some, None};
ghost use Rattle.std.specs.List.{join_with_byte};
ghost use Rattle.serde_json.specs.Data as json;
ghost use Rattle.gtm_data.specs.declared.data.Data.{Data};
ghost use Rattle.gtm_data.specs.Distinct.{Distinct};
ghost use Rattle.gtm_data.specs.Paths.{Step, at, dotted, walk, HaveNoDot, IsIndexed, Writes};
ghost use Rattle.gtm_data.specs.Plain.{plain, tree_in, not_whole, too_deep};
ghost use Rattle.gtm_data.specs.Tree.{Tree, tree_of};

use crate::MAX_DEPTH;

/// A law, with nothing to call: no Map of a value has a key twice.
pub fn keys_are_distinct()
    ensures { (value : Data) → Distinct (tree_of value) }
{}

/// A law, with nothing to call: a JSON tree is too deep exactly where it nests more than
/// `MAX_DEPTH` deep, by serde_json's own measure; and where its numbers are all whole and in range,
/// it is data exactly where it is not too deep.
pub fn data_is_plain_exactly_where_it_is_shallow()
    ensures shallow { (d : json.Data) → (too_deep d ≡ None) ↔ (json.depth d ≤ MAX_DEPTH) }
    ensures plain { (d : json.Data) → not_whole d ≡ None → (plain d ≡ Some (tree_in d))
        ↔ (json.depth d ≤ MAX_DEPTH) }
{}

/// A law, with nothing to call: the parts of a dotted text, joined by dots, are the text, and they
/// are the only parts without a dot that are.
pub fn dotted_texts_are_their_parts()
    ensures joined { (text : List ℕ) → join_with_byte 46 (dotted text) ≡ text }
    ensures apart { (text : List ℕ) → HaveNoDot (dotted text) }
    ensures only { (parts : List (List ℕ)) → parts ≢ [] → HaveNoDot parts
        → dotted (join_with_byte 46 parts) ≡ parts }
{}

/// A law, with nothing to call: the parts of a text lead to a value exactly where a path of keys
/// and indexes that is written so leads to it. No List of the tree may have more than 2^64 items,
/// as none in memory has.
pub fn get_goes_by_steps()
    ensures { (parts : List (List ℕ)) (tree value : Tree) → IsIndexed tree
        → (walk parts tree ≡ Some value)
        ↔ ((path : List Step) × Writes path parts × (at path tree ≡ Some value)) }
{}
