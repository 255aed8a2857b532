ghost use Rattle.std.specs.Prelude.{◌≡◌, IfOk};
ghost use Rattle.gtm_data.specs.Tree.{tree_of};
ghost use Rattle.variable_kinds.specs.Ends.{Asks};
ghost use Rattle.variable_kinds.specs.Kinds.{asked_of_kind, of_kind};
ghost use Rattle.variable_kinds.specs.Moment.{moment_of};

use crate::addresses::address_value;
use crate::reading::field;
use crate::sources::{cookie_field, global_field, layer_field};
use crate::tables::{lookup, regex_table};
use crate::{Names, ValueEnd};
use export_model::VariableKind;
use gtm_base::Engines;
use gtm_data::Data;

/// The value of a variable by its kind, from its fields; Undefined for a kind that enters a
/// template.
pub fn of_kind<E: Engines>(
    names: &Names,
    engines: &mut E,
    kind: &VariableKind,
    fields: &Data,
) -> Result<Data, ValueEnd>
    ensures value { IfOk result (λ made.
        tree_of made ≡ of_kind (moment_of names.now) kind.now (tree_of fields.now)) }
    ensures asks { Asks (asked_of_kind kind.now (tree_of fields.now))
        result (E.state engines.old) (E.state engines.new) }
{
    let alloc = names.alloc;
    let page = names.page;
    match kind {
        VariableKind::Layer => Ok(layer_field(alloc, names.layer, fields)?),
        VariableKind::Constant => Ok(field(alloc, fields, "value")?),
        VariableKind::Cookie => Ok(cookie_field(alloc, page, fields)?),
        VariableKind::Global => Ok(global_field(alloc, page, fields)?),
        VariableKind::Url => address_value(alloc, engines, fields, &page.url, &page.url_address),
        VariableKind::Referrer => {
            address_value(
                alloc,
                engines,
                fields,
                &page.referrer,
                &page.referrer_address,
            )
        },
        VariableKind::EventName => Ok(Data::Text(names.event.copy(alloc)?)),
        VariableKind::Lookup => Ok(lookup(alloc, fields)?),
        VariableKind::RegexTable => regex_table(alloc, engines, fields),
        VariableKind::Template(_) => Ok(Data::Undefined),
        VariableKind::Unknown(_) => Ok(Data::Undefined),
    }
}
