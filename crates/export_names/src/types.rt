ghost use Rattle.std.specs.Prelude.{◌≡◌, ◌<◌, ◌^◌, length, map, option_map, IfOk};
ghost use Rattle.export_names.specs.Types.{own_type, gallery_id, type_of_gallery, gallery_type};
ghost use Rattle.export_names.specs.Types.{names_of, template_at, HasTypesOf};

use crate::found_by::ByName;
use crate::numbers::{Numbers, numbers_of};
use export_entries::{WrittenTemplate, WrittenTemplates};
use gtm_base::{OutOfMemory, Text, Texts};
use std::alloc::Global;
use std::marker::Model;

/// The types that use a template. Fails where memory is wanting.
pub fn names_of(alloc: Global, written: &WrittenTemplate) -> Result<Texts, OutOfMemory>
    ensures { IfOk result (λ made. made ≡ names_of written.now) }
{
    let mut made = Texts::new(alloc);
    made.push(own_type(alloc, written)?)?;
    if let Some(id) = gallery_id(written) {
        made.push(type_of_gallery(alloc, id)?)?;
    }
    Ok(made)
}

// The type by the container and the template's id there.
fn own_type(alloc: Global, written: &WrittenTemplate) -> Result<Text, OutOfMemory>
    ensures { IfOk result (λ made. made ≡ own_type written.now) }
{
    let mut made = Text::new(alloc);
    made.push_word("cvt_")?;
    made.push_str(written.container.as_str())?;
    made.push_word("_")?;
    made.push_str(written.id.as_str())?;
    Ok(made)
}

// The type by a template's id in the gallery.
fn type_of_gallery(alloc: Global, id: &Text) -> Result<Text, OutOfMemory>
    ensures { IfOk result (λ made. made ≡ type_of_gallery id.now) }
{
    let mut made = Text::new(alloc);
    made.push_word("cvt_")?;
    made.push_str(id.as_str())?;
    Ok(made)
}

// The template's id in the gallery, where it has one.
fn gallery_id(written: &WrittenTemplate) -> Option<&Text>
    ensures { option_map (λ id. id.now) result ≡ gallery_id written.now }
{
    match &written.gallery {
        Some(gallery) => gallery.id.as_ref(),
        None => None,
    }
}

/// The types that the templates of a container have, as texts: each by the container, and each by
/// the gallery.
#[derive(Drop)]
pub struct TypeTexts {
    pub own: Texts,
    pub gallery: Texts,
}

/// The types that templates have. Fails where memory is wanting.
pub fn type_texts(alloc: Global, written: &WrittenTemplates) -> Result<TypeTexts, OutOfMemory>
    ensures { IfOk result (λ made. HasTypesOf written.now made) }
{
    let own = own_types(alloc, written)?;
    let gallery = gallery_types(alloc, written)?;
    Ok(TypeTexts { own, gallery })
}

// The types of the templates by the container, in order.
fn own_types(alloc: Global, written: &WrittenTemplates) -> Result<Texts, OutOfMemory>
    ensures { IfOk result (λ made. made ≡ map own_type written.now) }
{
    let mut made = Texts::new(alloc);
    for template in written.as_slice() {
        made.push(own_type(alloc, template)?)?;
    }
    Ok(made)
}

// The types of the templates by the gallery, in order.
fn gallery_types(alloc: Global, written: &WrittenTemplates) -> Result<Texts, OutOfMemory>
    ensures { IfOk result (λ made. made ≡ map gallery_type written.now) }
{
    let mut made = Texts::new(alloc);
    for template in written.as_slice() {
        made.push(gallery_type(alloc, template)?)?;
    }
    Ok(made)
}

// The type by the gallery, or where it has no id there the type by the container again.
fn gallery_type(alloc: Global, written: &WrittenTemplate) -> Result<Text, OutOfMemory>
    ensures { IfOk result (λ made. made ≡ gallery_type written.now) }
{
    match gallery_id(written) {
        Some(id) => type_of_gallery(alloc, id),
        None => own_type(alloc, written),
    }
}

/// The types that use a container's templates: each by its number finds the template.
#[derive(Drop)]
pub struct TemplateTypes<'a> {
    own: Numbers<'a>,
    gallery: Numbers<'a>,
}

impl<'a> Model for TemplateTypes<'a> {
    ghost use Rattle.export_names.specs.Types.{TypeLists};

    ghost Value = { TypeLists };

    ghost view = { λ types. record { own = types.own; gallery = types.gallery } };
}

impl<'a> TemplateTypes<'a> {
    /// These types. Fails where memory is wanting.
    pub fn of(alloc: Global, types: &'a TypeTexts) -> Result<TemplateTypes<'a>, OutOfMemory>
        requires few { length types.now.own < 2 ^ 32 }
        requires few_gallery { length types.now.gallery < 2 ^ 32 }
        ensures own { IfOk result (λ made. made.own ≡ types.now.own) }
        ensures gallery { IfOk result (λ made. made.gallery ≡ types.now.gallery) }
    {
        let own = numbers_of::<ByName, Text>(alloc, &types.own)?;
        let gallery = numbers_of::<ByName, Text>(alloc, &types.gallery)?;
        Ok(TemplateTypes { own, gallery })
    }

    /// The place of the first template that a type uses.
    pub fn template(&self, kind: &Text) -> Option<u32>
        ensures { result ≡ template_at self.now kind.now }
    {
        match (self.own.number(kind), self.gallery.number(kind)) {
            (Some(own), Some(gallery)) => Some(own.min(gallery)),
            (Some(own), None) => Some(own),
            (None, gallery) => gallery,
        }
    }
}
