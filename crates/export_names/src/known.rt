ghost use Rattle.std.specs.Prelude.{◌≡◌, ◌↔◌, ◌<◌, ◌^◌, IsTrue, IfOk};
ghost use Rattle.export_names.specs.Lists.{lists_of, HasFewEntries};
ghost use Rattle.export_names.specs.Types.{HasTypesOf};

use crate::found_by::{ById, ByName, texts_of};
use crate::names::Names;
use crate::numbers::{Numbers, numbers_of};
use crate::types::{TemplateTypes, TypeTexts};
use export_entries::{WrittenBuiltIn, WrittenEntries, WrittenTag, WrittenTrigger, WrittenVariable};
use gtm_base::OutOfMemory;
use std::alloc::Global;
use std::marker::Model;

/// The lists by which the names of a container become numbers.
#[derive(Drop)]
pub struct Known<'a> {
    /// The names of the variables and of the built-in variables.
    pub names: Names<'a>,
    /// The types that the templates have.
    pub types: TemplateTypes<'a>,
    /// The numbers of the triggers.
    pub triggers: Numbers<'a>,
    /// The names of the tags.
    pub tags: Numbers<'a>,
}

impl<'a> Model for Known<'a> {
    ghost use Rattle.export_names.specs.Lists.{Lists};

    ghost Value = { Lists };

    ghost view = { λ known.
        record {
          names =
              known.names;
          types = known.types;
          triggers = known.triggers;
          tags = known.tags;
        } };
}

/// The lists by which the names of entries become numbers, where these are the types that their
/// templates have. Each is collected once.
///
/// Fails where memory is wanting, and where a list has 2^32 entries or more: no export of at most 8
/// MiB has so many.
pub fn known_of<'a>(
    alloc: Global,
    types: &'a TypeTexts,
    written: &'a WrittenEntries,
) -> Result<Known<'a>, OutOfMemory>
    requires { HasTypesOf written.now.templates types.now }
    ensures { IfOk result (λ made. made ≡ lists_of written.now) }
{
    if !has_few_entries(written) {
        return Err(OutOfMemory);
    }
    let variables = texts_of::<ByName, WrittenVariable>(alloc, written.variables.as_slice())?;
    let built_ins = texts_of::<ByName, WrittenBuiltIn>(alloc, written.built_ins.as_slice())?;
    let names = Names::of(alloc, variables, built_ins)?;
    let types = TemplateTypes::of(alloc, types)?;
    let triggers = numbers_of::<ById, WrittenTrigger>(alloc, &written.triggers)?;
    let tags = numbers_of::<ByName, WrittenTag>(alloc, &written.tags)?;
    Ok(Known {
        names,
        types,
        triggers,
        tags,
    })
}

// Whether each list is short enough that each place has a number of 32 bits.
fn has_few_entries(written: &WrittenEntries) -> bool
    ensures { IsTrue result ↔ HasFewEntries written.now }
{
    is_few(written.tags.len())
        && is_few(written.triggers.len())
        && is_few(written.variables.len())
        && is_few(written.built_ins.len())
        && is_few(written.templates.len())
}

// Whether a number of entries is below 2^32.
fn is_few(count: usize) -> bool
    ensures { IsTrue result ↔ (count < 2 ^ 32) }
{
    count < 4_294_967_296
}
