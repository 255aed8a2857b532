ghost use Rattle.std.specs.Prelude.{◌≡◌, ◌↔◌, ℕ, List, Option, Some, None, slice_get};
ghost use Rattle.export_checks.specs.FirstFault.{items_fault, IsFirstFault};

/// A law, with nothing to call: items of a type have no fault exactly where no item has one, and
/// else their fault is that of the first item that has one, with its place before the path.
pub fn the_first_item_that_breaks_tells_it<T>()
    ensures none { (fault : T → Option (List ℕ)) (items : List T)
        → (items_fault fault 0 items ≡ None)
        ↔ ((place : ℕ) (item : T) → slice_get items place ≡ Some item → fault item ≡ None) }
    ensures first { (fault : T → Option (List ℕ)) (items : List T) (path : List ℕ)
        → (items_fault fault 0 items ≡ Some path) ↔ IsFirstFault fault items path }
{}
