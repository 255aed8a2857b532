ghost use Rattle.std.specs.Prelude.{◌≡◌, map, IfOk, ℕ, List};

use export_entries::{
    WrittenBuiltIn, WrittenTag, WrittenTemplate, WrittenTrigger, WrittenVariable,
};
use gtm_base::{OutOfMemory, Text};
use std::alloc::Global;

/// Entries are found by their ids.
pub struct ById;

/// Entries are found by their names.
pub struct ByName;

/// An entry that has a text by which it is found.
pub trait FoundBy<By> {
    ghost text: { Self → List ℕ };

    /// The text by which it is found.
    fn text(&self) -> &Text
        ensures { result.now ≡ text self.now };
}

/// The texts by which entries are found, in order. Fails where memory is wanting.
pub fn texts_of<By, T: FoundBy<By>>(alloc: Global, entries: &[T]) -> Result<Vec<&Text>, OutOfMemory>
    ensures { IfOk result (λ made. map (λ text. text.now) made.items ≡ map T.text entries.now) }
{
    let mut made = Vec::new(alloc);
    for entry in entries {
        made.push(entry.text())?;
    }
    Ok(made)
}

impl FoundBy<ById> for WrittenTag {
    ghost text = { λ tag. tag.id };

    fn text(&self) -> &Text {
        &self.id
    }
}

impl FoundBy<ByName> for WrittenTag {
    ghost text = { λ tag. tag.name };

    fn text(&self) -> &Text {
        &self.name
    }
}

impl FoundBy<ById> for WrittenTrigger {
    ghost text = { λ trigger. trigger.id };

    fn text(&self) -> &Text {
        &self.id
    }
}

impl FoundBy<ById> for WrittenVariable {
    ghost text = { λ variable. variable.id };

    fn text(&self) -> &Text {
        &self.id
    }
}

impl FoundBy<ByName> for WrittenVariable {
    ghost text = { λ variable. variable.name };

    fn text(&self) -> &Text {
        &self.name
    }
}

impl FoundBy<ByName> for WrittenBuiltIn {
    ghost text = { λ built_in. built_in.name };

    fn text(&self) -> &Text {
        &self.name
    }
}

impl FoundBy<ById> for WrittenTemplate {
    ghost text = { λ template. template.id };

    fn text(&self) -> &Text {
        &self.id
    }
}

impl FoundBy<ByName> for Text {
    ghost text = { λ text. text };

    fn text(&self) -> &Text {
        self
    }
}
