ghost use Rattle.std.specs.Prelude.{◌≡◌, ◌≤◌, ◌<◌, [], None, Some, false, IsTrue, is_err, IfOk};
ghost use Rattle.std.specs.Prelude.{length};
ghost use Rattle.std.specs.Io.KnownBytes.{ReadConsumes};
ghost use Rattle.gtm_base.specs.Causes.{Counts};

use crate::handed::keep_name;
use crate::{FileFailed, Files, Texts};
use std::alloc::Global;
use std::io::Read;
use std::marker::Model;
use std::rt;

/// Files on the disk. As `Files` they tell nothing of what a file holds. Beyond that, what `read`
/// answers is what the runtime's open file gave, where the type of that file tells it.
#[derive(Drop)]
pub struct DiskFiles<R: rt::Files> {
    alloc: Global,
    rt: R,
    file: Option<R::File>,
    names: Option<Texts>,
    faults: u64,
}

impl<R: rt::Files> Model for DiskFiles<R> {
    ghost use Rattle.std.specs.Prelude.{is_some, option_and_then};
    ghost use Rattle.gtm_base.specs.Disk.{DiskState};

    ghost Value = { DiskState };

    ghost view = { λ files. record {
      is_open = is_some files.file;
      to_read = option_and_then R.File.remaining files.file;
      names = files.names;
      faults = files.faults;
    } };
}

impl<R: rt::Files> DiskFiles<R> {
    /// The files that the runtime reaches, of which none is open. Takes no memory.
    pub fn new(alloc: Global, rt: R) -> DiskFiles<R>
        ensures { result
            ≡ record { is_open = false; to_read = None; names = Some []; faults = 0 } }
    {
        DiskFiles {
            alloc,
            rt,
            file: None,
            names: Some(Texts::new(alloc)),
            faults: 0,
        }
    }
}

impl<R: rt::Files> Files for DiskFiles<R> {
    ghost use Rattle.gtm_base.specs.Disk.{disk_files_state};

    ghost state = { disk_files_state };

    fn open(&mut self, name: &str) -> Result<(), FileFailed> {
        keep_name(self.alloc, &mut self.names, name);
        self.file = std::fs::open(&self.rt, name).ok();
        if self.file.is_none() {
            self.faults = self.faults.saturating_add(1);
            return Err(FileFailed);
        }
        Ok(())
    }

    /// Fails where the read of the open file fails.
    fn read(&mut self, piece: &mut [u8]) -> Result<usize, FileFailed>
        requires open { IsTrue self.old.is_open }
        requires room { 0 < length piece.old }
        ensures open { IsTrue self.new.is_open }
        ensures names { self.new.names ≡ self.old.names }
        ensures count { IfOk result (λ count. count ≤ length piece.new) }
        ensures given { ReadConsumes self.old.to_read self.new.to_read result piece.new }
        ensures counted { Counts (is_err result) self.old.faults self.new.faults }
    {
        let Some(file) = &mut self.file else {
            unreachable!()
        };
        match file.read(piece) {
            Ok(count) => Ok(count),
            Err(_) => {
                self.faults = self.faults.saturating_add(1);
                Err(FileFailed)
            },
        }
    }

    fn faults(&self) -> u64 {
        self.faults
    }
}
