ghost use Rattle.std.specs.Prelude.{◌≡◌, codes};
ghost use Rattle.serde_json.specs.View.{view};
ghost use Rattle.export_fields.specs.Fault.{Reads, Fails};

use export_fields::{Entry, ReadEnd, object, object_at, required_text, text};
use gtm_base::{ListOf, Text};
use serde_json::Value;
use std::alloc::Global;

/// Where a template came from: its number in the gallery, where it has one.
#[derive(Drop)]
pub struct WrittenGallery {
    pub id: Option<Text>,
}

impl Entry for WrittenGallery {
    ghost use Rattle.export_entries.specs.Templates.{gallery_fault, written_gallery};

    ghost fault = { gallery_fault };

    ghost made = { written_gallery };

    #[tactic(auto, unfolding(crate::specs::Templates::gallery_fault, crate::specs::Templates::written_gallery))]
    fn read(alloc: Global, value: &Value) -> Result<WrittenGallery, ReadEnd> {
        object(alloc, value)?;
        let id = object_at(alloc, value, "galleryTemplateId")?;
        Ok(WrittenGallery { id })
    }
}

/// A custom template as it is written: its sections are one text.
#[derive(Drop)]
pub struct WrittenTemplate {
    pub id: Text,
    pub sections: Text,
    pub container: Text,
    pub name: Text,
    pub gallery: Option<WrittenGallery>,
}

/// Custom templates, in order.
pub type WrittenTemplates = ListOf<WrittenTemplate>;

impl Entry for WrittenTemplate {
    ghost use Rattle.export_entries.specs.Templates.{template_fault, written_template};

    ghost fault = { template_fault };

    ghost made = { written_template };

    #[tactic(auto, unfolding(crate::specs::Templates::template_fault, crate::specs::Templates::written_template))]
    fn read(alloc: Global, value: &Value) -> Result<WrittenTemplate, ReadEnd> {
        object(alloc, value)?;
        let id = required_text(alloc, value, "templateId")?;
        let sections = required_text(alloc, value, "templateData")?;
        let container = text(alloc, value, "containerId")?;
        let name = text(alloc, value, "name")?;
        let gallery = object_at(alloc, value, "galleryReference")?;
        Ok(WrittenTemplate {
            id,
            sections,
            container,
            name,
            gallery,
        })
    }
}
