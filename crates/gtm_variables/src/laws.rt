ghost use Rattle.std.specs.Prelude.{◌≡◌, ℕ, Some, slice_get};
ghost use Rattle.export_model.specs.declared.params.NameRef.TheVariants as name;
ghost use Rattle.export_model.specs.declared.variables.Variable.{Variable};
ghost use Rattle.export_model.specs.Graphs.{variable_graph};
ghost use Rattle.gtm_data.specs.Tree.{Tree, undefined};
ghost use Rattle.reference_cycles.specs.Graph.{HasNoCycle};
ghost use Rattle.gtm_variables.specs.Meaning.{of_place, of_variable, value};
ghost use Rattle.gtm_variables.specs.Snapshot.{Snapshot};

/// A law, with nothing to call: where no variable refers to itself, the value of each is that of
/// its kind from the values of the names in its parameters, as its format changes it; and nothing
/// else solves these equations.
pub fn each_variable_has_the_value_of_its_kind()
    ensures value { (s : Snapshot) (at : ℕ) (variable : Variable)
        → HasNoCycle (variable_graph s.moment.container)
        → slice_get s.moment.container.variables at ≡ Some variable
        → value s (name.Variable at) ≡ of_variable s (value s) at variable }
    ensures alone { (s : Snapshot) (values : ℕ → Tree)
        → HasNoCycle (variable_graph s.moment.container)
        → ((at : ℕ) → values at ≡ of_place s values at) → (at : ℕ)
        → values at ≡ value s (name.Variable at) }
{}

/// A law, with nothing to call: the value of a name that nothing has is Undefined.
pub fn a_name_of_nothing_is_undefined()
    ensures { (s : Snapshot) → value s name.Nothing ≡ undefined }
{}
