ghost use Rattle.std.specs.Prelude.{◌≡◌, [], Some, None, IfOk, codes, option_map};
ghost use Rattle.serde_json.specs.View.{view, items_view};
ghost use Rattle.export_reader.specs.Rules as rules;
ghost use Rattle.export_reader.specs.Rules.{is_web, has_web, lists_web, context_of, context_path};

use export_fields::key_before;
use folded_words::is_folded;
use gtm_base::{OutOfMemory, Text};
use serde_json::Value;
use std::alloc::Global;

/// The path of what the container is used in, where it says so and web is not among that.
pub fn not_web(alloc: Global, version: &Value) -> Result<Option<Text>, OutOfMemory>
    ensures { IfOk result (λ found. found ≡ rules.not_web (view version.now)) }
{
    match context_of(version) {
        Some(context) => if lists_web(alloc, context)? {
            Ok(None)
        } else {
            Ok(Some(context_path(alloc)?))
        },
        None => Ok(None),
    }
}

// What the container is used in, if it says so.
fn context_of(version: &Value) -> Option<&Value>
    ensures { option_map (λ context. view context.now) result ≡ context_of (view version.now) }
{
    match version.get("container") {
        Some(container) => container.get("usageContext"),
        None => None,
    }
}

fn context_path(alloc: Global) -> Result<Text, OutOfMemory>
    ensures { IfOk result (λ path. path ≡ context_path) }
{
    let here = key_before(alloc, "usageContext", &Text::new(alloc))?;
    let container = key_before(alloc, "container", &here)?;
    let path = key_before(alloc, "containerVersion", &container)?;
    Ok(path)
}

fn lists_web(alloc: Global, context: &Value) -> Result<bool, OutOfMemory>
    ensures { IfOk result (λ found. found ≡ lists_web (view context.now)) }
{
    match context {
        Value::Array(items) => has_web(alloc, items),
        _ => Ok(false),
    }
}

fn has_web(alloc: Global, items: &Vec<Value>) -> Result<bool, OutOfMemory>
    ensures { IfOk result (λ found. found ≡ has_web (items_view items.now.items)) }
{
    for item in items {
        if is_web(alloc, item)? {
            return Ok(true);
        }
    }
    Ok(false)
}

fn is_web(alloc: Global, value: &Value) -> Result<bool, OutOfMemory>
    ensures { IfOk result (λ found. found ≡ is_web (view value.now)) }
{
    match value.as_str() {
        Some(text) => is_folded(alloc, text, "web"),
        None => Ok(false),
    }
}
