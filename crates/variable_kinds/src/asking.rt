ghost use Rattle.std.specs.Prelude.{◌≡◌, ◌⊎◌, ◌∷◌, [], IfOk};
ghost use Rattle.variable_kinds.specs.Ends.{Asks, address_in, finds};

use crate::ValueEnd;
use gtm_base::{Address, EngineEnd, Engines, OutOfMemory, Text};
use std::alloc::Global;

/// Whether the engines find the pattern anywhere in the text; not where it is no pattern.
pub fn finds<E: Engines>(
    alloc: Global,
    engines: &mut E,
    pattern: &Text,
    text: &Text,
) -> Result<bool, ValueEnd>
    ensures answer { IfOk result (λ found. found ≡ finds pattern.now text.now) }
    ensures asks { Asks (pattern.now ∷ []) result (E.state engines.old) (E.state engines.new) }
{
    match engines.finds(alloc, pattern.as_str(), text.as_str()) {
        Ok(found) => Ok(found),
        Err(EngineEnd::OutOfMemory) => Err(ValueEnd::OutOfMemory),
        Err(EngineEnd::Refused) => Err(refused(alloc, pattern)),
    }
}

/// The address that the engines read in the text, or `None` where it is malformed.
pub fn address<E: Engines>(
    alloc: Global,
    engines: &mut E,
    text: &Text,
) -> Result<Option<Address>, ValueEnd>
    ensures answer { IfOk result (λ address. address ≡ address_in text.now) }
    ensures asks { Asks (text.now ∷ []) result (E.state engines.old) (E.state engines.new) }
{
    match engines.address(alloc, text.as_str()) {
        Ok(address) => Ok(address),
        Err(EngineEnd::OutOfMemory) => Err(ValueEnd::OutOfMemory),
        Err(EngineEnd::Refused) => Err(refused(alloc, text)),
    }
}

// The end that the engines refused a text, or `OutOfMemory` where there is no memory for it.
fn refused(alloc: Global, text: &Text) -> ValueEnd
    ensures { (result ≡ ValueEnd.EngineRefused text.now) ⊎ (result ≡ ValueEnd.OutOfMemory) }
{
    match text.copy(alloc) {
        Ok(text) => ValueEnd::EngineRefused { text },
        Err(OutOfMemory) => ValueEnd::OutOfMemory,
    }
}
