ghost use Rattle.std.specs.Prelude.{◌≡◌, ◌↔◌, ℕ, List, Option, Some, None};
ghost use Rattle.serde_json.specs.Data.{Data, Items};
ghost use Rattle.serde_json.specs.Find.{get_item};
ghost use Rattle.export_fields.specs.ListOf.{items_fault, IsFirstFault};
ghost use Rattle.export_fields.specs.Params.{IsReadByFields};

/// A law, with nothing to call: items have no fault exactly where no item has one, and the fault of
/// items is that of the first item that has one, with its place before the path.
pub fn the_first_item_with_a_fault_tells_it()
    ensures none { (fault : Data → Option (List ℕ)) (items : Items)
        → (items_fault fault 0 items ≡ None)
        ↔ ((place : ℕ) (d : Data) → get_item place items ≡ Some d → fault d ≡ None) }
    ensures first { (fault : Data → Option (List ℕ)) (items : Items) (path : List ℕ)
        → (items_fault fault 0 items ≡ Some path) ↔ IsFirstFault fault items path }
{}

/// A law, with nothing to call: the fault of a parameter is that of no object, or else the first of
/// its fields, and its list and its map are lists of parameters that are read alike.
pub fn parameters_are_read_by_fields()
    ensures { (value : Data) → IsReadByFields value }
{}
