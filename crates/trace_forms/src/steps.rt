use gtm_data::{Data, PageFact};

/// What a trace asks for.
#[derive(Drop)]
pub enum TraceStep {
    /// Something becomes known of the page.
    Fact(PageFact),
    /// One push to the data layer.
    Push(Data),
    /// A push of a list of arguments.
    Args(Data),
    /// How the load of this number, from 1, ended.
    Load { load: u64, ok: bool },
    /// How the start of this number, from 1, of a vendor's tag ended.
    Vendor { start: u64, ok: bool },
}

/// What a line of a trace says.
#[derive(Drop)]
pub enum LineRead {
    /// Nothing: it has spaces, tabs and CRs alone.
    Blank,
    Step(TraceStep),
    /// The least rule that it breaks, from 2 to 7.
    Bad(u8),
}
