//! Files by their paths, and whether one of them failed.

ghost use Rattle.std.specs.Prelude.{◌≡◌, ◌≢◌, ◌<◌, ◌≤◌, ℕ, List, Option, IfErr, IfOk, IfSome, OnErr, OnOk, length, true};
ghost use Rattle.std.specs.Prelude.{false};
ghost use Rattle.std.specs.IoError.{error_kind};
ghost use Rattle.std.specs.declared.io.ErrorKind.TheVariants.{OutOfMemory};
ghost use Rattle.roster_watched.specs.Watch.{inner_of, has_failed};

use crate::keeping::Kept;
use crate::slots::Slot;
use roster_watched::Watched;
use std::alloc::{AllocError, Global};
use std::io;
use std::io::Read;

/// The path that stands for standard input.
pub const STANDARD_INPUT: &str = "-";

/// No report has so many bytes.
pub const MOST_REPORT_BYTES: u64 = 1 << 20;

/// Who has files by their paths.
pub trait Shelf {
    /// A file that is read, or standard input.
    type Input: Read + Drop;

    /// A file that keeps a plan.
    type Keep: Slot + Drop;

    // What the file at a path holds, so far as that is known.
    ghost bytes_at: { Self → List ℕ → Option (List ℕ) };

    // Whether a file that is put at a path may take the place of the one at another.
    ghost may_take: { Self → List ℕ → List ℕ → Type 0 };

    // Whether it is known to take it.
    ghost must_take: { Self → List ℕ → List ℕ → Type 0 };

    // Whether the file at a path is known to open.
    ghost must_open: { Self → List ℕ → Type 0 };

    // Whether memory may run out while it is opened.
    ghost may_lack: { Self → List ℕ → Type 0 };

    // What it may be once the file at a path was lent to keep a plan.
    ghost lends: { Self → List ℕ → Self → Type 0 };

    /// The file at the path, or standard input at `-`, from its first byte.
    fn open(&self, path: &str) -> io::Result<Self::Input>
        ensures bytes { IfOk result (λ input. Self.Input.remaining input ≡ bytes_at self.now path.now) }
        ensures opens { IfErr result (λ error. error_kind error ≢ OutOfMemory
            → ¬ must_open self.now path.now) }
        ensures lacks { IfErr result (λ error. error_kind error ≡ OutOfMemory → may_lack self.now path.now) };

    /// Whether a file that is put at the path would take the place of the one at the other path.
    fn takes(&self, path: &str, other: &str) -> Result<bool, AllocError>
        ensures yes { IfOk result (λ yes. yes ≡ true → may_take self.now path.now other.now) }
        ensures no { IfOk result (λ yes. yes ≡ false → ¬ must_take self.now path.now other.now) };

    /// The file at the path, to keep a plan. So far nothing is written.
    fn lend(&mut self, path: &str) -> Result<Self::Keep, AllocError>
        ensures lent { OnOk result (lends self.old path.now self.new) }
        ensures same { OnErr result (self.new ≡ self.old) };
}

/// Why a file gives no bytes.
#[derive(Clone, Copy, PartialEq, Eq)]
pub(crate) enum Unread {
    /// It can't be opened.
    Unopened,
    /// It can't be read.
    Broken,
    /// It is too long for a report.
    TooLong,
    /// Memory ran out.
    Memory,
}

/// Files by their paths, and whether one of them couldn't be opened, read or put.
#[derive(Drop)]
pub struct Files<S> {
    shelf: S,
    failed: bool,
}

impl<S: Shelf> Files<S> {
    ghost use Rattle.std.specs.Prelude.{◌||◌, ◌⊎◌, option_map};
    ghost use Rattle.roster_desk_program.specs.Files.{IsUnopened, has_missed, shelf_of};
    ghost use Rattle.roster_desk_program.specs.Keeping.{IsLent, is_lost};
    ghost use Rattle.roster_desk_program.specs.declared.files.Unread.{Unread};

    /// Files of which none has failed.
    pub fn new(shelf: S) -> Files<S>
        ensures shelf { shelf_of result ≡ shelf }
        ensures none { has_missed result ≡ false }
    {
        Files {
            shelf,
            failed: false,
        }
    }

    /// Whether one of them has failed.
    pub fn missed(&self) -> bool
        ensures { result ≡ has_missed self.now }
    {
        self.failed
    }

    /// The file at the path, from its first byte. Whoever reads it says whether that failed.
    fn opened(&mut self, path: &str) -> Result<S::Input, Unread>
        ensures shelf { shelf_of self.new ≡ shelf_of self.old }
        ensures bytes { IfOk result (λ input. S.Input.remaining input
            ≡ S.bytes_at (shelf_of self.old) path.now) }
        ensures goes { OnOk result (has_missed self.new ≡ has_missed self.old) }
        ensures fault { IfErr result (IsUnopened S.must_open S.may_lack path.now self.old self.new) }
    {
        match self.shelf.open(path) {
            Ok(input) => Ok(input),
            Err(error) if error.kind() == io::ErrorKind::OutOfMemory => Err(Unread::Memory),
            Err(_) => {
                self.failed = true;
                Err(Unread::Unopened)
            }
        }
    }

    /// The file at the path, from its first byte.
    pub(crate) fn open(&mut self, path: &str) -> Result<Watched<S::Input>, Unread>
        ensures shelf { shelf_of self.new ≡ shelf_of self.old }
        ensures bytes { IfOk result (λ reader. S.Input.remaining (inner_of reader)
            ≡ S.bytes_at (shelf_of self.old) path.now) }
        ensures open { IfOk result (λ reader. has_failed reader ≡ false) }
        ensures goes { OnOk result (has_missed self.new ≡ has_missed self.old) }
        ensures fault { IfErr result (IsUnopened S.must_open S.may_lack path.now self.old self.new) }
    {
        match self.opened(path) {
            Ok(input) => Ok(Watched::new(input)),
            Err(fault) => Err(fault),
        }
    }

    /// Takes back a file that was read.
    pub(crate) fn close(&mut self, reader: &Watched<S::Input>)
        ensures shelf { shelf_of self.new ≡ shelf_of self.old }
        ensures failed { has_missed self.new ≡ (has_missed self.old || has_failed reader.now) }
    {
        if reader.failed() {
            self.failed = true;
        }
    }

    /// The bytes of the report at the path.
    pub(crate) fn read_report(&mut self, alloc: Global, path: &str) -> Result<Vec<u8>, Unread>
        ensures shelf { shelf_of self.new ≡ shelf_of self.old }
        ensures bytes { IfOk result (λ report. IfSome (S.bytes_at (shelf_of self.old) path.now)
            (λ held. report.items ≡ held)) }
        ensures long { IfErr result (λ fault. fault ≡ Unread.TooLong
            → IfSome (S.bytes_at (shelf_of self.old) path.now) (λ held. MOST_REPORT_BYTES ≤ length held)) }
        ensures goes { OnOk result (has_missed self.new ≡ has_missed self.old) }
        ensures fails { IfErr result (λ fault. (fault ≡ Unread.Unopened) ⊎ (fault ≡ Unread.Broken)
            → has_missed self.new ≡ true) }
        ensures unopened { IfErr result (λ fault. fault ≡ Unread.Unopened
            → ¬ S.must_open (shelf_of self.old) path.now) }
        ensures others { IfErr result (λ fault. (fault ≡ Unread.TooLong) ⊎ (fault ≡ Unread.Memory)
            → has_missed self.new ≡ has_missed self.old) }
    {
        let input = match self.opened(path) {
            Ok(input) => input,
            Err(fault) => return Err(fault),
        };
        let mut bytes = Vec::new(alloc);
        match input.take(MOST_REPORT_BYTES).read_to_end(&mut bytes) {
            Ok(_) if bytes.len() as u64 >= MOST_REPORT_BYTES => Err(Unread::TooLong),
            Ok(_) => Ok(bytes),
            Err(error) if error.kind() == io::ErrorKind::OutOfMemory => Err(Unread::Memory),
            Err(_) => {
                self.failed = true;
                Err(Unread::Broken)
            }
        }
    }

    /// Whether a file that is put at the path would take the place of the one at the other path.
    pub(crate) fn takes(&self, path: &str, other: &str) -> Result<bool, AllocError>
        ensures yes { IfOk result (λ yes. yes ≡ true
            → S.may_take (shelf_of self.now) path.now other.now) }
        ensures no { IfOk result (λ yes. yes ≡ false
            → ¬ S.must_take (shelf_of self.now) path.now other.now) }
    {
        self.shelf.takes(path, other)
    }

    /// The file at the path, to keep a plan, if there is a path.
    pub(crate) fn lend(&mut self, path: Option<&str>) -> Result<Option<S::Keep>, AllocError>
        ensures lent { IsLent S.lends (option_map (λ path. path.now) path.entry)
            (shelf_of self.old) (shelf_of self.new) }
        ensures goes { has_missed self.new ≡ has_missed self.old }
    {
        match path {
            Some(path) => Ok(Some(self.shelf.lend(path)?)),
            None => Ok(None),
        }
    }

    /// Counts the file that keeps a plan.
    pub(crate) fn count(&mut self, kept: Kept)
        ensures shelf { shelf_of self.new ≡ shelf_of self.old }
        ensures failed { has_missed self.new ≡ (has_missed self.old || is_lost kept) }
    {
        if kept.is_lost() {
            self.failed = true;
        }
    }
}
