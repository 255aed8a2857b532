ghost use Rattle.std.specs.Prelude.{◌≡◌, ◌++◌, ◌∷◌, ℕ, List, Some, false, true};
ghost use Rattle.gtm_data.specs.Paths.{dotted, walk};
ghost use Rattle.gtm_data.specs.Tree.{Tree};
ghost use Rattle.page_world.specs.Globals.{is_in_the_way, set_at};
ghost use Rattle.page_world.specs.Parts.{HasMapAt, LeadsThroughOther, is_within};
ghost use Rattle.page_world.specs.Returns.{begins_with};

/// A law, with nothing to call: a value that is set at a path stands there, and every path that is
/// neither above nor below shows what it showed; and above it are Maps.
pub fn setting_goes_by_paths()
    ensures value { (parts : List (List ℕ)) (v t : Tree) → walk parts (set_at parts v t) ≡ Some v }
    ensures others { (parts others : List (List ℕ)) (v t : Tree) → is_in_the_way parts t ≡ false
        → begins_with parts others ≡ false → begins_with others parts ≡ false
        → walk others (set_at parts v t) ≡ walk others t }
    ensures parents { (front : List (List ℕ)) (part : List ℕ) (rest : List (List ℕ)) (v t : Tree)
        → HasMapAt front (set_at (front ++ part ∷ rest) v t) }
{}

/// A law, with nothing to call: something is in the way exactly where a front of the path, and not
/// all of it, leads to a value that is no Map.
pub fn only_other_values_are_in_the_way()
    ensures other { (parts : List (List ℕ)) (t : Tree) → is_in_the_way parts t ≡ true
        → LeadsThroughOther parts t }
    ensures blocks { (parts : List (List ℕ)) (t : Tree) → LeadsThroughOther parts t
        → is_in_the_way parts t ≡ true }
{}

/// A law, with nothing to call: the parts of a key begin with those of another exactly where it is
/// that other key, or goes on behind it with a dot.
pub fn keys_below_go_on_with_a_dot()
    ensures { (key other : List ℕ)
        → is_within key other ≡ begins_with (dotted key) (dotted other) }
{}
