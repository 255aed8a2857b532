ghost use Rattle.std.specs.Prelude.{◌≡◌, option_map, IfOk, find};
ghost use Rattle.export_names.specs.Members.{is_group, is_member_list, member_params};

use export_entries::WrittenTrigger;
use export_fields::{ParamKind, WrittenParam, WrittenParams};
use folded_words::is_folded;
use gtm_base::OutOfMemory;
use std::alloc::Global;

/// The parameters that name the members of a group: of another trigger, none. Fails where memory is
/// wanting.
pub fn member_params(
    alloc: Global,
    written: &WrittenTrigger,
) -> Result<&[WrittenParam], OutOfMemory>
    ensures { IfOk result (λ params. params.now ≡ member_params written.now) }
{
    if !is_group(alloc, written)? {
        return Ok(&[]);
    }
    match member_list(&written.params) {
        Some(param) => Ok(param.list.as_slice()),
        None => Ok(&[]),
    }
}

/// Whether a trigger is a group. Fails where memory is wanting.
pub fn is_group(alloc: Global, written: &WrittenTrigger) -> Result<bool, OutOfMemory>
    ensures { IfOk result (λ is. is ≡ is_group written.now) }
{
    is_folded(alloc, written.kind.as_str(), "triggergroup")
}

// The first list of members.
fn member_list(params: &WrittenParams) -> Option<&WrittenParam>
    ensures { option_map (λ param. param.now) result ≡ find is_member_list params.now }
{
    params.as_slice().iter().find(|param| is_member_list(param))
}

/// Whether a parameter is a list of a group's members.
pub fn is_member_list(param: &WrittenParam) -> bool
    ensures { result ≡ is_member_list param.now }
{
    matches!(param.kind, ParamKind::List) && param.key.is_word("triggerIds")
}
