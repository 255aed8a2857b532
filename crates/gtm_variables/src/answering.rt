ghost use Rattle.std.specs.Prelude.{◌≡◌, ◌∷◌, [], All, Err, IfOk};
ghost use Rattle.export_model.specs.Names.{names_in};
ghost use Rattle.export_model.specs.Params.{value_of};
ghost use Rattle.export_model.specs.Sound.{IsNameIn};
ghost use Rattle.gtm_data.specs.Tree.{tree_of};
ghost use Rattle.variable_kinds.specs.Ends.{Asks};
ghost use Rattle.variable_kinds.specs.declared.value_end.ValueEnd.TheVariants as end;
ghost use Rattle.gtm_variables.specs.Asked.{asked};
ghost use Rattle.gtm_variables.specs.Kept.{Enters, IsFor, IsSpent, moment_of};
ghost use Rattle.gtm_variables.specs.Meaning as spec;
ghost use Rattle.gtm_variables.specs.Meaning.{resolved_in};
ghost use Rattle.gtm_variables.specs.Snapshot.{snapshot};

use crate::caller::TemplateCaller;
use crate::filling::{resolve, value};
use crate::{ValueEnd, Values};
use export_model::{NameRef, ParamValue};
use gtm_base::Engines;
use gtm_data::Data;

impl Values<'_> {
    /// A parameter's value, with the values of the names in it, whatever was asked before.
    ///
    /// `EngineRefused` comes only with a rise of the engines' count, with a text that the moment
    /// may ask them; all that was computed by then is kept. After want of memory it is spent.
    pub fn resolve<C: TemplateCaller, E: Engines>(
        &mut self,
        caller: &mut C,
        engines: &mut E,
        param: &ParamValue,
    ) -> Result<Data, ValueEnd>
        requires names { All (IsNameIn self.old.container.now) (names_in (value_of param.now)) }
        requires caller { IsFor C.meaning C.serves C.knows caller.old self.old }
        ensures value { IfOk result (λ made. tree_of made
            ≡ resolved_in (snapshot (moment_of self.old) (C.meaning caller.old))
            (value_of param.now)) }
        ensures moment { moment_of self.new ≡ moment_of self.old }
        ensures caller { IsFor C.meaning C.serves C.knows caller.new self.new }
        ensures entered { Enters C.meaning C.serves C.knows C.keeps
            (snapshot (moment_of self.old) (C.meaning caller.old)) caller.old caller.new }
        ensures asks { Asks (asked (snapshot (moment_of self.old) (C.meaning caller.old)))
            result (E.state engines.old) (E.state engines.new) }
        ensures spent { result ≡ Err end.OutOfMemory → IsSpent self.new }
        ensures stays_spent { IsSpent self.old → (result ≡ Err end.OutOfMemory)
            × (self.new ≡ self.old) × (C.meaning caller.new ≡ C.meaning caller.old) }
    {
        if self.spent {
            return Err(ValueEnd::OutOfMemory);
        }
        match resolve(self, caller, engines, param) {
            Ok(made) => Ok(made),
            Err(ValueEnd::OutOfMemory) => {
                self.spent = true;
                Err(ValueEnd::OutOfMemory)
            },
            Err(ValueEnd::EngineRefused { text }) => Err(ValueEnd::EngineRefused { text }),
        }
    }

    /// The value of a name, whatever was asked before.
    ///
    /// `EngineRefused` and want of memory are as for `resolve`.
    pub fn value<C: TemplateCaller, E: Engines>(
        &mut self,
        caller: &mut C,
        engines: &mut E,
        name: &NameRef,
    ) -> Result<Data, ValueEnd>
        requires names { All (IsNameIn self.old.container.now) (name.now ∷ []) }
        requires caller { IsFor C.meaning C.serves C.knows caller.old self.old }
        ensures value { IfOk result (λ made. tree_of made
            ≡ spec.value (snapshot (moment_of self.old) (C.meaning caller.old)) name.now) }
        ensures moment { moment_of self.new ≡ moment_of self.old }
        ensures caller { IsFor C.meaning C.serves C.knows caller.new self.new }
        ensures entered { Enters C.meaning C.serves C.knows C.keeps
            (snapshot (moment_of self.old) (C.meaning caller.old)) caller.old caller.new }
        ensures asks { Asks (asked (snapshot (moment_of self.old) (C.meaning caller.old)))
            result (E.state engines.old) (E.state engines.new) }
        ensures spent { result ≡ Err end.OutOfMemory → IsSpent self.new }
        ensures stays_spent { IsSpent self.old → (result ≡ Err end.OutOfMemory)
            × (self.new ≡ self.old) × (C.meaning caller.new ≡ C.meaning caller.old) }
    {
        if self.spent {
            return Err(ValueEnd::OutOfMemory);
        }
        match value(self, caller, engines, *name) {
            Ok(made) => Ok(made),
            Err(ValueEnd::OutOfMemory) => {
                self.spent = true;
                Err(ValueEnd::OutOfMemory)
            },
            Err(ValueEnd::EngineRefused { text }) => Err(ValueEnd::EngineRefused { text }),
        }
    }
}
