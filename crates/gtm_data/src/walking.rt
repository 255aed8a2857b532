ghost use Rattle.std.specs.Prelude.{◌≡◌, ◌<◌, ◌^◌, ℕ, IfSome, IfNone, option_map, decimal};
ghost use Rattle.std.specs.Str.{chars};
ghost use Rattle.gtm_data.specs.Paths.{walk, dotted, named};
ghost use Rattle.gtm_data.specs.Tree.{tree_of};

use crate::data::Data;

/// The value at a dotted path: each part is a key of a Map or an index of a List, counted from 0
/// and written in decimal digits with no zero before them. `None` where a part leads nowhere. Takes
/// no memory.
pub fn get<'a>(root: &'a Data, path: &str) -> Option<&'a Data>
    ensures { option_map (λ found. tree_of found.now) result
        ≡ walk (dotted (chars path.now)) (tree_of root.now) }
{
    let mut here = root;
    let mut left = path;
    while let Some((part, rest)) = left.split_once('.') {
        here = named(here, part)?;
        left = rest;
    }
    named(here, left)
}

fn named<'a>(value: &'a Data, name: &str) -> Option<&'a Data>
    ensures { option_map (λ found. tree_of found.now) result
        ≡ named (chars name.now) (tree_of value.now) }
{
    match value {
        Data::Map(members) => members.get(name),
        Data::List(items) => items.get(index_below(items.len(), name)?),
        _ => None,
    }
}

// The index below `limit` that is written so.
fn index_below(limit: usize, name: &str) -> Option<usize>
    ensures below { IfSome result (λ at. at < limit) }
    ensures written { IfSome result (λ at. decimal at ≡ chars name.now) }
    ensures none { IfNone result ((at : ℕ) → at < limit → decimal at ≡ chars name.now → ⊥) }
{
    let at = index(name)?;
    if at < limit { Some(at) } else { None }
}

// The number that is written so in decimal digits, with no sign and no zero before them.
fn index(name: &str) -> Option<usize>
    ensures written { IfSome result (λ at. decimal at ≡ chars name.now) }
    ensures none { IfNone result ((at : ℕ) → at < 2 ^ 64 → decimal at ≡ chars name.now → ⊥) }
{
    if name == "0" {
        return Some(0);
    }
    // `parse` would take zeros first, and a plus.
    if name.starts_with('0') {
        return None;
    }
    if name.starts_with('+') {
        return None;
    }
    name.parse::<usize>().ok()
}
