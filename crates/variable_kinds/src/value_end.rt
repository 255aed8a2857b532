use gtm_base::{OutOfMemory, Text};

/// Why there is no value.
#[derive(Debug, Drop, PartialEq, Eq)]
pub enum ValueEnd {
    /// Memory was wanting.
    OutOfMemory,
    /// The engines refused this text: a pattern or an address.
    EngineRefused { text: Text },
}

impl From<OutOfMemory> for ValueEnd {
    ghost use Rattle.std.specs.Prelude.{◌≡◌};
    ghost use Rattle.variable_kinds.specs.declared.value_end.ValueEnd.TheVariants.{OutOfMemory};

    ghost from_gives = { λ _ end. end ≡ OutOfMemory };

    fn from(_: OutOfMemory) -> Self {
        ValueEnd::OutOfMemory
    }
}
