ghost use Rattle.std.specs.Prelude.{◌≡◌, map, IfOk};
ghost use Rattle.export_container.specs.Tags.{tag_kind, tag_of};

use crate::turns::{consent_of, option_of, priority_of, setup_of, teardown_of};
use export_entries::{WrittenTag, WrittenTags};
use export_model::{Tag, TagKind, Tags};
use export_names::{Known, TemplateTypes, params_of, trigger_refs};
use gtm_base::{OutOfMemory, Text};
use std::alloc::Global;

/// The tags that written ones stand for, in order. Fails where memory is wanting.
pub fn tags_of(alloc: Global, known: &Known, written: &WrittenTags) -> Result<Tags, OutOfMemory>
    ensures { IfOk result (λ made. made ≡ map (tag_of known.now) written.now) }
{
    let mut made = Tags::new(alloc);
    for tag in written.as_slice() {
        made.push(tag_of(alloc, known, tag)?)?;
    }
    Ok(made)
}

// The tag that a written one stands for.
fn tag_of(alloc: Global, known: &Known, written: &WrittenTag) -> Result<Tag, OutOfMemory>
    ensures { IfOk result (λ made. made ≡ tag_of known.now written.now) }
{
    let id = written.id.copy(alloc)?;
    let name = written.name.copy(alloc)?;
    let kind = tag_kind(alloc, &known.types, &written.kind)?;
    let params = params_of(alloc, &known.names, &written.params)?;
    let firing = trigger_refs(alloc, &known.triggers, &written.firing)?;
    let blocking = trigger_refs(alloc, &known.triggers, &written.blocking)?;
    let consent = consent_of(alloc, &written.turn.consent)?;
    Ok(Tag {
        id,
        name,
        kind,
        params,
        firing,
        blocking,
        priority: priority_of(&written.priority),
        option: option_of(written.turn.option),
        setup: setup_of(&known.tags, &written.turn.setup),
        teardown: teardown_of(&known.tags, &written.turn.teardown),
        paused: written.turn.paused,
        from_ms: written.turn.from_ms,
        until_ms: written.turn.until_ms,
        consent,
    })
}

// What a tag of this type runs.
fn tag_kind(alloc: Global, types: &TemplateTypes, kind: &Text) -> Result<TagKind, OutOfMemory>
    ensures { IfOk result (λ made. made ≡ tag_kind types.now kind.now) }
{
    match types.template(kind) {
        Some(at) => Ok(TagKind::Template(at)),
        None => Ok(TagKind::Opaque(kind.copy(alloc)?)),
    }
}
