ghost use Rattle.std.specs.Prelude.{◌≡◌, IfSome, IfNone};
ghost use Rattle.std.specs.Borrow.{LendsIf, sem};
ghost use Rattle.gtm_data.specs.Tree.{tree_of};
ghost use Rattle.gtm_data.specs.contracts.data.Data.{the_row};
ghost use Rattle.gtm_data.specs.declared.data.Data.{List, Map};
ghost use Rattle.gtm_data.specs.declared.data.Data as variants;
ghost use Rattle.data_layer.specs.Rows.{items_row, members_row, text_row, IsNoList, IsNoMap};

use gtm_base::Text;
use gtm_data::{Data, Items, Members};

/// The items of a List, to be changed in it, or `None` of any other value.
pub fn items_of(value: &mut Data) -> Option<&mut Items>
    ensures* writes_back { sem 𝓛 (LendsIf the_row items_row value.entry result List value.old) }
    ensures items { IfSome result (λ items. value.old ≡ List items.now) }
    ensures none { IfNone result (IsNoList (tree_of value.old)) }
{
    if let Data::List(items) = value {
        Some(items)
    } else {
        None
    }
}

/// The members of a Map, to be changed in it, or `None` of any other value.
pub fn members_of(value: &mut Data) -> Option<&mut Members>
    ensures* writes_back { sem 𝓛 (LendsIf the_row members_row value.entry result Map value.old) }
    ensures members { IfSome result (λ members. value.old ≡ Map members.now) }
    ensures none { IfNone result (IsNoMap (tree_of value.old)) }
{
    if let Data::Map(members) = value {
        Some(members)
    } else {
        None
    }
}

/// The text that a value is, to be changed in it, or `None` of any other value.
pub fn text_of(value: &mut Data) -> Option<&mut Text>
    ensures* writes_back { sem 𝓛
        (LendsIf the_row text_row value.entry result variants.Text value.old) }
    ensures text { IfSome result (λ text. value.old ≡ variants.Text text.now) }
{
    if let Data::Text(text) = value {
        Some(text)
    } else {
        None
    }
}
