ghost use Rattle.std.specs.Prelude.{◌≡◌, ◌<◌, ◌≤◌, IsTrue, is_err, length, take, IfOk, IfSome};
ghost use Rattle.std.specs.Prelude.{MatchResult, []};
ghost use Rattle.std.specs.Str.{chars};
ghost use Rattle.gtm_base.specs.Causes.{Counts, every};
ghost use Rattle.gtm_base.specs.Outside.{FilesState, SinkState, Opens, ReadsOn, and_then};
ghost use Rattle.gtm_base.specs.Outside.{followed_by};

/// A file could not be opened or read.
#[derive(Clone, Copy, Debug, PartialEq, Eq)]
pub struct FileFailed;

/// A sink took nothing.
#[derive(Clone, Copy, Debug, PartialEq, Eq)]
pub struct SinkFailed;

/// Files by name, of which one is open at a time.
///
/// A clause speaks of content only where the files tell it: files on a disk tell none.
pub trait Files {
    /// What the files hold, what is open, what is left of it, and how often a call has failed.
    ghost state: { Self → FilesState };

    /// Closes the open file and opens the one with this name, at its first byte. After an error no
    /// file is open.
    ///
    /// Fails where the files do not hold the name, and else only with a rise of the count.
    fn open(&mut self, name: &str) -> Result<(), FileFailed>
        ensures { Opens result (state self.old) (state self.new) (chars name.now) };

    /// Reads the next bytes of the open file into the front of the piece, and answers how many: 0
    /// exactly at the end.
    ///
    /// Fails only with a rise of the count, and then reads nothing.
    fn read(&mut self, piece: &mut [u8]) -> Result<usize, FileFailed>
        requires open { IsTrue (state self.old).is_open }
        requires room { 0 < length piece.old }
        ensures files { ReadsOn every result (state self.old) (state self.new) }
        ensures count { IfOk result (λ count. count ≤ length piece.new) }
        ensures bytes { MatchResult result
            (λ count. (state self.old).left
            ≡ followed_by (take count piece.new) (state self.new).left)
            (λ _. (state self.new).left ≡ (state self.old).left) }
        ensures end { IfOk result
            (λ count. count ≡ 0 → IfSome (state self.old).left (λ bytes. bytes ≡ [])) };

    /// How often a call has failed, at most the greatest `u64`. The count never falls.
    fn faults(&self) -> u64
        ensures { result ≡ (state self.now).faults };
}

/// Where bytes are written.
///
/// A clause speaks of what was taken only where the sink tells it: a stream of the system tells
/// none.
pub trait Sink {
    /// What was taken, and how often a call has failed.
    ghost state: { Self → SinkState };

    /// Takes a front of the piece, at least one byte, and answers how many.
    ///
    /// Fails only with a rise of the count, and then takes nothing.
    fn write(&mut self, piece: &[u8]) -> Result<usize, SinkFailed>
        requires { 0 < length piece.now }
        ensures count { IfOk result (λ count. (0 < count) × (count ≤ length piece.now)) }
        ensures bytes { MatchResult result
            (λ count. (state self.new).taken
            ≡ and_then (state self.old).taken (take count piece.now))
            (λ _. (state self.new).taken ≡ (state self.old).taken) }
        ensures counted { Counts (is_err result) (state self.old).faults (state self.new).faults };

    /// How often a call has failed, at most the greatest `u64`. The count never falls.
    fn faults(&self) -> u64
        ensures { result ≡ (state self.now).faults };
}
