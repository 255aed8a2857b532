ghost use Rattle.std.specs.Prelude.{◌≡◌, IfOk};
ghost use Rattle.std.specs.Str.{chars};
ghost use Rattle.gtm_data.specs.Tree.{text, tree_of};
ghost use Rattle.variable_kinds.specs.Addresses as spec;
ghost use Rattle.variable_kinds.specs.Addresses.{address_value, custom_in, custom_part, known_part};
ghost use Rattle.variable_kinds.specs.Addresses.{nowhere, part, query_part};
ghost use Rattle.variable_kinds.specs.Ends.{Asks, text_if};
ghost use Rattle.std.specs.Prelude.{◌∷◌, []};

use crate::ValueEnd;
use crate::asking::address;
use crate::components::{Component, Wanted, text_of_field, wanted_by};
use address_parts::{
    extension, fragment, host, path, port, protocol, query, query_value, without_fragment,
};
use gtm_base::{Address, Engines, OutOfMemory, Text};
use gtm_data::Data;
use std::alloc::Global;

/// The part that the fields ask for, of the address that they hand in, or else of the known one,
/// which was given as this text.
pub fn address_value<E: Engines>(
    alloc: Global,
    engines: &mut E,
    fields: &Data,
    given: &Text,
    known: &Option<Address>,
) -> Result<Data, ValueEnd>
    ensures value { IfOk result (λ made.
        tree_of made ≡ address_value (tree_of fields.now) given.now known.now) }
    ensures asks { Asks (text_if (custom_in (tree_of fields.now)))
        result (E.state engines.old) (E.state engines.new) }
{
    let wanted = wanted_by(alloc, fields)?;
    match text_of_field(alloc, fields, "customUrlSource")? {
        Some(custom) => custom_part(alloc, engines, &wanted, &custom),
        None => Ok(known_part(alloc, &wanted, given, known)?),
    }
}

// The wanted part of an address that is handed in; Undefined where it is malformed.
fn custom_part<E: Engines>(
    alloc: Global,
    engines: &mut E,
    wanted: &Wanted,
    given: &Text,
) -> Result<Data, ValueEnd>
    ensures value { IfOk result (λ made. tree_of made ≡ custom_part wanted.now given.now) }
    ensures asks { Asks (given.now ∷ []) result (E.state engines.old) (E.state engines.new) }
{
    match address(alloc, engines, given)? {
        Some(address) => Ok(part(alloc, wanted, given, &address)?),
        None => Ok(Data::Undefined),
    }
}

/// The wanted part of a known address, which was given as this text; of a malformed one all but the
/// url is empty.
pub fn known_part(
    alloc: Global,
    wanted: &Wanted,
    given: &Text,
    known: &Option<Address>,
) -> Result<Data, OutOfMemory>
    ensures { IfOk result (λ made. tree_of made ≡ known_part wanted.now given.now known.now) }
{
    match known {
        Some(address) => part(alloc, wanted, given, address),
        None => part(alloc, wanted, given, &nowhere(alloc)),
    }
}

// The address of which each part is empty. Takes no memory.
fn nowhere(alloc: Global) -> Address
    ensures { result ≡ nowhere }
{
    Address {
        href: Text::new(alloc),
        scheme: Text::new(alloc),
        username: Text::new(alloc),
        password: Text::new(alloc),
        host: None,
        port: None,
        path: Text::new(alloc),
        query: None,
        fragment: None,
    }
}

// The wanted part of an address; Undefined where it is none that an address has.
fn part(
    alloc: Global,
    wanted: &Wanted,
    given: &Text,
    address: &Address,
) -> Result<Data, OutOfMemory>
    ensures { IfOk result (λ made. tree_of made ≡ part wanted.now given.now address.now) }
{
    match wanted.component {
        Some(component) => component_of(alloc, component, wanted, given, address),
        None => Ok(Data::Undefined),
    }
}

fn component_of(
    alloc: Global,
    component: Component,
    wanted: &Wanted,
    given: &Text,
    address: &Address,
) -> Result<Data, OutOfMemory>
    ensures { IfOk result (λ made.
        tree_of made ≡ spec.component_of component wanted.now given.now address.now) }
{
    match component {
        Component::Url => Ok(Data::Text(without_fragment(alloc, given.as_str())?)),
        Component::Protocol => text_data(alloc, protocol(address)),
        Component::Host => text_data(alloc, host(address, wanted.strip_www)),
        Component::Port => Ok(Data::Text(port(alloc, address)?)),
        Component::Path => text_data(alloc, path(address)),
        Component::Query => query_part(alloc, &wanted.key, address),
        Component::Fragment => text_data(alloc, fragment(address)),
        Component::Extension => text_data(alloc, extension(address)),
    }
}

// The query, or the first value of a key in it, Undefined where it has none.
fn query_part(alloc: Global, key: &Option<Text>, address: &Address) -> Result<Data, OutOfMemory>
    ensures { IfOk result (λ made. tree_of made ≡ query_part key.now address.now) }
{
    let Some(key) = key else {
        return text_data(alloc, query(address));
    };
    match query_value(alloc, address, key)? {
        Some(value) => Ok(Data::Text(value)),
        None => Ok(Data::Undefined),
    }
}

// The value of a text.
fn text_data(alloc: Global, characters: &str) -> Result<Data, OutOfMemory>
    ensures { IfOk result (λ made. tree_of made ≡ text (chars characters.now)) }
{
    Ok(Data::Text(Text::from_str(alloc, characters)?))
}
