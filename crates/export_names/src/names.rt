ghost use Rattle.std.specs.Prelude.{◌≡◌, ◌<◌, ◌^◌, IfOk, length, map, codes};
ghost use Rattle.std.specs.Str.{chars, bytes_eq};
ghost use Rattle.export_names.specs.Names.{name_ref};

use export_model::NameRef;
use gtm_base::{OutOfMemory, Text};
use std::alloc::Global;
use std::marker::Model;
use text_places::Places;

/// The names of a container's variables and of its built-in variables.
#[derive(Drop)]
pub struct Names<'a> {
    variables: Places<'a>,
    built_ins: Places<'a>,
}

impl<'a> Model for Names<'a> {
    ghost use Rattle.export_names.specs.Names.{NameLists, AreFew};

    ghost Value = { NameLists };

    ghost view = { λ names. record { variables = names.variables; built_ins = names.built_ins } };

    ghost invariant = { λ names.
        AreFew (record { variables = names.variables; built_ins = names.built_ins }) };
}

impl<'a> Names<'a> {
    /// The names of these variables and of these built-in variables. Fails where memory is wanting.
    pub fn of(
        alloc: Global,
        variables: Vec<&'a Text>,
        built_ins: Vec<&'a Text>,
    ) -> Result<Names<'a>, OutOfMemory>
        requires few_variables { length variables.items < 2 ^ 32 }
        requires few_built_ins { length built_ins.items < 2 ^ 32 }
        ensures variables { IfOk result
            (λ made. made.variables ≡ map (λ t. t.now) variables.entry.items) }
        ensures built_ins { IfOk result
            (λ made. made.built_ins ≡ map (λ t. t.now) built_ins.entry.items) }
    {
        let variables = Places::of(alloc, variables)?;
        let built_ins = Places::of(alloc, built_ins)?;
        Ok(Names {
            variables,
            built_ins,
        })
    }
}

/// What a name stands for: `_event` for the name of the event, else the first variable with the
/// name, else the first built-in variable with it, else nothing.
pub fn name_ref(names: &Names, name: &str) -> NameRef
    ensures { result ≡ name_ref names.now (chars name.now) }
{
    if is_event(name) {
        return NameRef::EventName;
    }
    if let Some(at) = names.variables.place(name) {
        return NameRef::Variable(at as u32);
    }
    match names.built_ins.place(name) {
        Some(at) => NameRef::BuiltIn(at as u32),
        None => NameRef::Nothing,
    }
}

// Whether it is the word for the name of the event.
fn is_event(name: &str) -> bool
    ensures { result ≡ bytes_eq (chars name.now) (codes "_event") }
{
    name == "_event"
}
