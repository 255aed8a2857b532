ghost use Rattle.std.specs.Prelude.{◌≡◌, ℕ, List};
ghost use Rattle.export_entries.specs.declared.templates.WrittenTemplate.{WrittenTemplate};
ghost use Rattle.export_entries.specs.declared.triggers.WrittenTrigger.{WrittenTrigger};
ghost use Rattle.export_model.specs.Sound.{InRange};
ghost use Rattle.export_entries.specs.declared.entries.WrittenEntries.{WrittenEntries};
ghost use Rattle.export_container.specs.Container.{container_of};
ghost use Rattle.export_container.specs.References.{each_once, IsEachOnce};
ghost use Rattle.export_container.specs.Templates.{AreRead};
ghost use Rattle.export_templates.specs.declared.readings.TemplateReading.{TemplateReading};
ghost use Rattle.export_container.specs.Triggers.{trigger_kind, is_group_kind};
ghost use Rattle.export_names.specs.Members.{is_group};

/// A law, with nothing to call: of texts that are told each once none stands twice, they are those
/// of the list, and they come in the order of their first places in it.
pub fn each_text_is_told_once()
    ensures { (texts : List (List ℕ)) → IsEachOnce texts (each_once texts) }
{}

/// A law, with nothing to call: a trigger has the members of a group exactly where its kind is that
/// of groups.
pub fn a_group_is_known_by_its_kind()
    ensures { (written : WrittenTrigger) → is_group written ≡ is_group_kind (trigger_kind written) }
{}

/// A law, with nothing to call: in the container of any entries, with a reading for each template,
/// each number is a place in the list that it names.
pub fn every_number_is_in_range()
    ensures { (readings : List TemplateReading) (written : WrittenEntries)
        → AreRead readings written.templates → InRange (container_of readings written) }
{}
