use gtm_base::Text;
use gtm_data::Data;

/// A line of the log.
#[derive(Debug, Drop)]
pub enum Line {
    /// `message J`, with ` ignored` behind where the message was ignored.
    Message {
        value: Data,
        ignored: bool,
    },
    /// `command J`: a pushed List, with ` ignored` behind where it was ignored.
    Command {
        value: Data,
        ignored: bool,
    },
    /// `event E J`: the event's number, from 1, and its name.
    Event {
        event: u64,
        name: Text,
    },
    /// `model J`: the data layer's model after the last step.
    Model {
        value: Data,
    },
    /// `end steps=A jobs=B events=C starts=D ok=E fail=F denied=G faults=H`.
    End {
        steps: u64,
        jobs: u64,
        events: u64,
        starts: u64,
        ok: u64,
        fail: u64,
        denied: u64,
        faults: u64,
    },
}
