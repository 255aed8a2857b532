use crate::faults::FaultKind;
use crate::permissions::Permission;
use gtm_base::Text;
use gtm_data::Data;

/// How an entry into a template's script ended.
#[derive(Debug, Drop)]
pub enum Outcome {
    /// It returned a value.
    Returned(Data),
    /// A call was denied, since its policy lacks this permission. The second is the place of the
    /// call in the script's text, counted in bytes from 0.
    Denied(Permission, usize),
    /// The script did what a script must not do. The second is the place, as above.
    Fault(FaultKind, usize),
}

/// Why an entry has no outcome.
#[derive(Debug, Drop)]
pub enum EntryError {
    /// Memory was wanting.
    OutOfMemory,
    /// An engine refused this text: a pattern or an address.
    EngineRefused { text: Text },
}

/// What a host answers to a call of a script.
#[derive(Debug, Drop)]
pub enum HostAnswer {
    /// The call was performed, and its value is this one.
    Value(Data),
    /// The call was performed, and its value is a function that pushes to the global variable of
    /// this key: a list of all its arguments where `whole` is true, and else its first argument.
    Push { key: Text, whole: bool },
    /// The call was not performed, since the policy lacks this permission.
    Denied(Permission),
    /// The call was not performed, since its arguments are none that it takes.
    Fault(FaultKind),
}
