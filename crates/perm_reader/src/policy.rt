ghost use Rattle.std.specs.Prelude.{◌≡◌, ◌↔◌, IfOk, OnOk, Err, false, option_map};
ghost use Rattle.gtm_data.specs.Tree.{tree_of, trees_of};
ghost use Rattle.perm_reader.specs.Policies.{are_permissions, are_entries, is_entry, are_params};
ghost use Rattle.perm_reader.specs.Policies.{are_params_in, policy_read};

use crate::permissions::{name_of, params_found, read_entries};
use crate::reading::Reading;
use crate::values::text_member;
use gtm_base::{OutOfMemory, Texts};
use gtm_data::Data;
use perm_model::{Grants, Policy};
use std::alloc::Global;

/// Why permissions have no policy.
#[derive(Clone, Copy, Debug, PartialEq, Eq)]
pub enum PolicyEnd {
    OutOfMemory,
    /// They are no list of entries, each with a text as `instance.key.publicId` and, where it has
    /// `instance.param`, a list there of objects with a text as `key`.
    Form,
}

impl From<OutOfMemory> for PolicyEnd {
    ghost use Rattle.std.specs.Prelude.{◌≡◌};
    ghost use Rattle.perm_reader.specs.declared.policy.PolicyEnd.{PolicyEnd};

    ghost from_gives = { λ _ end. end ≡ PolicyEnd.OutOfMemory };

    fn from(_: OutOfMemory) -> Self {
        PolicyEnd::OutOfMemory
    }
}

/// The policy of a list of permissions, and the texts of its warnings, in order: names of
/// permissions, words, rows and patterns that are not known, and that grant nothing.
pub fn read_policy(alloc: Global, tree: &Data) -> Result<(Policy, Texts), PolicyEnd>
    ensures form { (result ≡ Err PolicyEnd.Form) ↔ (are_permissions (tree_of tree.now) ≡ false) }
    ensures grants { IfOk result (λ r. r.0.grants ≡ (policy_read (tree_of tree.now)).grants) }
    ensures warnings { IfOk result (λ r. r.1 ≡ (policy_read (tree_of tree.now)).warnings) }
{
    let entries = match tree {
        Data::List(entries) => entries.as_slice(),
        _ => return Err(PolicyEnd::Form),
    };
    if !are_entries(entries) {
        return Err(PolicyEnd::Form);
    }
    let mut out = Reading {
        grants: Grants::new(alloc),
        warnings: Texts::new(alloc),
    };
    read_entries(alloc, &mut out, entries)?;
    let Reading { grants, warnings } = out;
    Ok((Policy { grants }, warnings))
}

fn are_entries(entries: &[Data]) -> bool
    ensures { result ≡ are_entries (trees_of entries.now) }
{
    for entry in entries {
        if !is_entry(entry) {
            return false;
        }
    }
    true
}

fn is_entry(entry: &Data) -> bool
    ensures { result ≡ is_entry (tree_of entry.now) }
{
    name_of(entry).is_some() && are_params_in(params_found(entry))
}

fn are_params_in(params: Option<&Data>) -> bool
    ensures { result ≡ are_params_in (option_map (λ v. tree_of v.now) params.entry) }
{
    match params {
        Some(Data::List(params)) => are_params(params.as_slice()),
        Some(_) => false,
        None => true,
    }
}

fn are_params(params: &[Data]) -> bool
    ensures { result ≡ are_params (trees_of params.now) }
{
    for param in params {
        if text_member(param, "key").is_none() {
            return false;
        }
    }
    true
}
