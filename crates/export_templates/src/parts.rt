ghost use Rattle.std.specs.Prelude.{◌≡◌, ◌≤◌, length, option_map, IfOk, IfSome};
ghost use Rattle.gtm_data.specs.Tree.{tree_of};
ghost use Rattle.template_sections.specs.Cut.{IsWithin, AreWithin};
ghost use Rattle.export_templates.specs.Parts.{body_of, data_in, section_list, type_in};
ghost use Rattle.export_templates.specs.Parts.{fields_found, permissions_in, permissions_found};
ghost use Rattle.export_templates.specs.Parts.{parts_of};

use export_model::FieldNames;
use gtm_base::{OutOfMemory, Texts};
use gtm_data::{Data, DataEnd, Items, from_json, json_of};
use perm_model::Policy;
use perm_reader::{PolicyEnd, read_policy};
use std::alloc::Global;
use template_fields::{fields_in, is_tag};
use template_sections::{Sections, Span};

/// What a template is allowed, and the texts of what of its permissions was not understood.
#[derive(Debug, Drop)]
pub struct Permissions {
    pub policy: Policy,
    pub warnings: Texts,
}

/// What the sections of a template's text were read as, each by itself.
#[derive(Debug, Drop)]
pub struct TemplateParts {
    /// Whether it is a template of tags, or one of variables. `None` where INFO is no object of
    /// whole data with the type TAG or MACRO.
    pub is_tag: Option<bool>,
    /// Its fields. `None` where its parameters have not the form of a list of fields.
    pub fields: Option<FieldNames>,
    /// What it is allowed. `None` where its permissions have not the form of a list of them.
    pub permissions: Option<Permissions>,
}

/// What the sections of a text are read as. Fails where memory is wanting.
#[tactic(auto, unfolding(crate::specs::Parts::parts_of))]
pub(crate) fn parts_of(
    alloc: Global,
    text: &[u8],
    sections: &Sections,
) -> Result<TemplateParts, OutOfMemory>
    requires { AreWithin (length text.now) sections.now }
    ensures { IfOk result (λ made. made ≡ parts_of text.now sections.now) }
{
    let is_tag = type_in(alloc, body_of(text, sections.info))?;
    let fields = fields_found(alloc, text, sections.parameters)?;
    let permissions = permissions_found(alloc, text, sections.permissions)?;
    Ok(TemplateParts {
        is_tag,
        fields,
        permissions,
    })
}

// The body of a section.
fn body_of(text: &[u8], span: Span) -> &[u8]
    requires { IsWithin (length text.now) span }
    ensures { result.now ≡ body_of text.now span }
{
    &text[span.from..span.to]
}

// The data of a JSON text, or `None` where it is no JSON text of whole data.
fn data_in(alloc: Global, bytes: &[u8]) -> Result<Option<Data>, OutOfMemory>
    ensures { IfOk result (λ found. option_map tree_of found ≡ data_in bytes.now) }
{
    let Some(tree) = json_of(alloc, bytes)? else {
        return Ok(None);
    };
    match from_json(alloc, &tree) {
        Ok(found) => Ok(Some(found)),
        Err(DataEnd::OutOfMemory) => Err(OutOfMemory),
        Err(DataEnd::NotWhole { .. }) => Ok(None),
        Err(DataEnd::TooDeep { .. }) => Ok(None),
    }
}

// The data of a section, where it is there; an absent one is an empty list.
fn section_list(alloc: Global, text: &[u8], span: Option<Span>) -> Result<Option<Data>, OutOfMemory>
    requires { IfSome span (IsWithin (length text.now)) }
    ensures { IfOk result (λ found. option_map tree_of found ≡ section_list text.now span) }
{
    match span {
        Some(span) => data_in(alloc, body_of(text, span)),
        None => Ok(Some(Data::List(Items::new(alloc)))),
    }
}

// Whether INFO says that its template is one of tags.
fn type_in(alloc: Global, info: &[u8]) -> Result<Option<bool>, OutOfMemory>
    ensures { IfOk result (λ found. found ≡ type_in info.now) }
{
    match data_in(alloc, info)? {
        Some(info) => is_tag(alloc, &info),
        None => Ok(None),
    }
}

// The fields of the parameters.
fn fields_found(
    alloc: Global,
    text: &[u8],
    span: Option<Span>,
) -> Result<Option<FieldNames>, OutOfMemory>
    requires { IfSome span (IsWithin (length text.now)) }
    ensures { IfOk result (λ found. found ≡ fields_found text.now span) }
{
    match section_list(alloc, text, span)? {
        Some(parameters) => fields_in(alloc, &parameters),
        None => Ok(None),
    }
}

// What the permissions allow.
fn permissions_found(
    alloc: Global,
    text: &[u8],
    span: Option<Span>,
) -> Result<Option<Permissions>, OutOfMemory>
    requires { IfSome span (IsWithin (length text.now)) }
    ensures { IfOk result (λ found. found ≡ permissions_found text.now span) }
{
    match section_list(alloc, text, span)? {
        Some(list) => permissions_in(alloc, &list),
        None => Ok(None),
    }
}

// What a list of permissions allows.
fn permissions_in(alloc: Global, list: &Data) -> Result<Option<Permissions>, OutOfMemory>
    ensures { IfOk result (λ found. found ≡ permissions_in (tree_of list.now)) }
{
    match read_policy(alloc, list) {
        Ok((policy, warnings)) => Ok(Some(Permissions { policy, warnings })),
        Err(PolicyEnd::Form) => Ok(None),
        Err(PolicyEnd::OutOfMemory) => Err(OutOfMemory),
    }
}
