ghost use Rattle.std.specs.Prelude.{◌≡◌, ℕ, List, All};
ghost use Rattle.export_model.specs.Names.{names_in};
ghost use Rattle.export_model.specs.Params.{value_of};
ghost use Rattle.export_fields.specs.declared.params.WrittenParam.{WrittenParam, out-WrittenParam};
ghost use Rattle.export_names.specs.Cut.{WrittenPiece, cut};
ghost use Rattle.export_names.specs.LookedUp.{IsLookedUp};
ghost use Rattle.export_names.specs.Names.{NameLists};
ghost use Rattle.export_names.specs.Params.{value_with, param_of, params_of};
ghost use Rattle.export_names.specs.Whole.{IsCut};
ghost use Rattle.export_entries.specs.declared.templates.WrittenTemplate.{WrittenTemplate};
ghost use Rattle.export_names.specs.Types.{types_of, template_at, first_using};

/// A law, with nothing to call: the pieces of a text, put together again with each name in its
/// braces, give the text; no literal is empty or has a `{{` with a `}}` behind it, no two literals
/// follow each other, a name begins at the first `{{` from the literal before it on, and it ends at
/// the first `}}`. No other list of pieces keeps to all that.
pub fn a_text_is_cut_whole()
    ensures whole { (text : List ℕ) → IsCut text (cut text) }
    ensures only { (text : List ℕ) (pieces : List WrittenPiece) → IsCut text pieces
        → pieces ≡ cut text }
{}

/// A law, with nothing to call: a parameter of the model has the key of the written one, and the
/// value that its kind and its text say, with the parameters that stand for those of its list and
/// of its map.
pub fn a_parameter_is_turned_by_its_fields()
    ensures key { (names : NameLists) (written : WrittenParam)
        → (param_of names written).key ≡ (out-WrittenParam written).key }
    ensures value { (names : NameLists) (written : WrittenParam) →
        (param_of names written).value
        ≡ value_with names (out-WrittenParam written).kind (out-WrittenParam written).value
        (params_of names (out-WrittenParam written).list)
        (params_of names (out-WrittenParam written).map) }
{}

/// A law, with nothing to call: each name in a parameter of the model, however deep it stands, is
/// what some word stands for.
pub fn each_name_is_looked_up()
    ensures { (names : NameLists) (written : WrittenParam)
        → All (IsLookedUp names) (names_in (value_of (param_of names written).value)) }
{}

/// A law, with nothing to call: a type finds the first template that has it among its names.
pub fn a_type_finds_the_first_template()
    ensures { (kind : List ℕ) (templates : List WrittenTemplate)
        → template_at (types_of templates) kind ≡ first_using kind templates }
{}
