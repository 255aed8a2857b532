ghost use Rattle.std.specs.Prelude.{◌≡◌, ◌↔◌, ℕ, List, Bool, Some, None};
ghost use Rattle.export_model.specs.declared.params.NameRef.{NameRef};
ghost use Rattle.export_model.specs.declared.params.Param.{Param};
ghost use Rattle.export_model.specs.declared.variables.Format.{Format};
ghost use Rattle.export_model.specs.declared.variables.VariableKind.{VariableKind};
ghost use Rattle.export_model.specs.Names.{names_in, names_in_all, names_of_format};
ghost use Rattle.export_model.specs.Params.{ValueTree, params_of};
ghost use Rattle.gtm_data.specs.Tree.{Tree, Trees, text};
ghost use Rattle.variable_kinds.specs.Fields.{first_row};
ghost use Rattle.variable_kinds.specs.Formats.{cased, formatted};
ghost use Rattle.variable_kinds.specs.Found.{IsFirstFound, IsNoneFound};
ghost use Rattle.variable_kinds.specs.Resolved.{Agree, fields_for, resolved};

/// A law, with nothing to call: a row is found where its key passes the test and no key before it
/// does, and its value is the table's, Undefined or not; none is found exactly where no key passes.
pub fn a_found_row_is_the_first()
    ensures some { (passes : List ℕ → Bool) (rows : Trees) (value : Tree)
        → (first_row passes rows ≡ Some value) ↔ IsFirstFound passes rows value }
    ensures none { (passes : List ℕ → Bool) (rows : Trees)
        → (first_row passes rows ≡ None) ↔ IsNoneFound passes rows }
{}

/// A law, with nothing to call: what is no text has no case to be changed.
pub fn only_texts_change_their_case()
    ensures { (format : Format) (value : Tree)
        → ((characters : List ℕ) → value ≡ text characters → ⊥) → cased format value ≡ value }
{}

/// A law, with nothing to call: the value of a parameter, the fields of a variable and what its
/// format makes of a value depend on nothing but the values of the names that they name.
pub fn values_depend_on_their_names()
    ensures resolved { (some other : NameRef → Tree) (value : ValueTree)
        → Agree some other (names_in value) → resolved some value ≡ resolved other value }
    ensures fields { (some other : NameRef → Tree) (kind : VariableKind) (params : List Param)
        → Agree some other (names_in_all (params_of params))
        → fields_for some kind params ≡ fields_for other kind params }
    ensures formatted { (some other : NameRef → Tree) (format : Format) (value : Tree)
        → Agree some other (names_of_format format)
        → formatted some format value ≡ formatted other format value }
{}
