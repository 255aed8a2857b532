//! Files that give one byte a read, for tests of whatever reads in pieces.
#![tactic(auto)]

ghost use Rattle.std.specs.Prelude.{◌≡◌, ◌≤◌, ◌<◌, length, take, [], IsTrue, IfOk, IfSome};
ghost use Rattle.std.specs.Prelude.{MatchResult};
ghost use Rattle.gtm_base.specs.Causes.{every};
ghost use Rattle.gtm_base.specs.Outside.{ReadsOn, followed_by};

use gtm_base::{FileFailed, Files};

/// Files that give at most one byte a read, and else do what the files within do.
#[derive(Drop)]
pub struct OneByte<F: Drop> {
    pub files: F,
}

impl<F: Files + Drop> Files for OneByte<F> {
    ghost state = { λ slow. F.state slow.files };

    fn open(&mut self, name: &str) -> Result<(), FileFailed> {
        self.files.open(name)
    }

    /// Reads the next byte of the open file, and answers 0 exactly at the end.
    fn read(&mut self, piece: &mut [u8]) -> Result<usize, FileFailed>
        requires open { IsTrue (F.state self.old.files).is_open }
        requires room { 0 < length piece.old }
        ensures one { IfOk result (λ count. count ≤ 1) }
        ensures files { ReadsOn every result (F.state self.old.files) (F.state self.new.files) }
        ensures count { IfOk result (λ count. count ≤ length piece.new) }
        ensures bytes { MatchResult result
            (λ count. (F.state self.old.files).left
            ≡ followed_by (take count piece.new) (F.state self.new.files).left)
            (λ _. (F.state self.new.files).left ≡ (F.state self.old.files).left) }
        ensures end { IfOk result
            (λ count. count ≡ 0 → IfSome (F.state self.old.files).left (λ bytes. bytes ≡ [])) }
    {
        self.files.read(&mut piece[..1])
    }

    fn faults(&self) -> u64 {
        self.files.faults()
    }
}
