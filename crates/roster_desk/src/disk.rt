//! The files of the process, and its standard input.

ghost use Rattle.std.specs.Prelude.{⊤, None};

use roster_desk_program::{STANDARD_INPUT, Shelf, Slot};
use std::alloc::AllocError;
use std::fs::File;
use std::io::{Input, Read, StdinLock, Write};
use std::os::unix::fs::MetadataExt;
use std::{fs, io};

/// The files of the process, and its standard input at `-`. Nothing is promised of what they hold.
#[derive(Drop)]
pub(crate) struct Disk<'a> {
    rt: &'a HostRuntime,
}

impl<'a> Disk<'a> {
    /// Those of the process.
    pub(crate) fn new(rt: &'a HostRuntime) -> Disk<'a> {
        Disk { rt }
    }
}

/// A file that is read, or standard input.
#[derive(Drop)]
pub(crate) enum Opened {
    File(File),
    Standard(StdinLock<'static>),
}

impl Read for Opened {
    fn read(&mut self, buf: &mut [u8]) -> io::Result<usize> {
        match self {
            Opened::File(file) => file.read(buf),
            Opened::Standard(input) => input.read(buf),
        }
    }
}

/// The file at a path that keeps a plan.
#[derive(Drop)]
pub(crate) struct KeptFile<'a> {
    rt: &'a HostRuntime,
    path: String,
    // The path of the new file beside it.
    part: String,
    has_refused: bool,
}

impl KeptFile<'_> {
    /// A new file beside the one at the path takes its place once it is whole.
    fn is_put(&self, text: &[u8]) -> bool {
        let (path, part) = (self.path.as_str(), self.part.as_str());
        if !is_free(self.rt, path) {
            return false;
        }
        let Ok(mut file) = File::create(self.rt, part) else {
            return false;
        };
        if file.write_all(text).is_ok() && fs::rename(self.rt, part, path).is_ok() {
            return true;
        }
        let _ = fs::remove_file(self.rt, part);
        false
    }
}

impl Slot for KeptFile<'_> {
    ghost held = { λ _. None };

    ghost has_refused = { λ file. file.has_refused };

    fn put(&mut self, text: &[u8]) -> bool {
        let is_put = self.is_put(text);
        if !is_put {
            self.has_refused = true;
        }
        is_put
    }

    fn refused(&self) -> bool {
        self.has_refused
    }
}

impl<'a> Shelf for Disk<'a> {
    type Input = Opened;

    type Keep = KeptFile<'a>;

    ghost bytes_at = { λ _ _. None };

    ghost may_take = { λ _ _ _. ⊤ };

    ghost must_take = { λ _ _ _. ⊥ };

    ghost must_open = { λ _ _. ⊥ };

    ghost may_lack = { λ _ _. ⊤ };

    ghost lends = { λ _ _ _. ⊤ };

    fn open(&self, path: &str) -> io::Result<Opened> {
        if path == STANDARD_INPUT {
            return Ok(Opened::Standard(self.rt.reader()));
        }
        Ok(Opened::File(File::open(self.rt, path)?))
    }

    fn takes(&self, path: &str, other: &str) -> Result<bool, AllocError> {
        let part = part_of(self.rt, path)?;
        Ok(is_one_file(self.rt, path, other) || is_one_file(self.rt, part.as_str(), other))
    }

    fn lend(&mut self, path: &str) -> Result<KeptFile<'a>, AllocError> {
        let rt = self.rt;
        let part = part_of(rt, path)?;
        let path = String::from_str(rt.alloc(), path)?;
        Ok(KeptFile {
            rt,
            path,
            part,
            has_refused: false,
        })
    }
}

/// The path of the new file beside the one at the path.
fn part_of(rt: &HostRuntime, path: &str) -> Result<String, AllocError> {
    format!(in rt.alloc(); "{path}.part")
}

/// Whether both paths lead to one file.
fn is_one_file(rt: &HostRuntime, one: &str, other: &str) -> bool {
    match (fs::metadata(rt, one), fs::metadata(rt, other)) {
        (Ok(one), Ok(other)) => one.dev() == other.dev() && one.ino() == other.ino(),
        _ => false,
    }
}

/// Whether there is a file at the path, or nothing at all.
fn is_free(rt: &HostRuntime, path: &str) -> bool {
    fs::metadata(rt, path).map_or(true, |it| it.is_file())
}
