//! Files in memory, who is told of a plan, and a writer that fails.

ghost use Rattle.std.specs.Prelude.{◌≡◌, ⊤, None, Some};

use roster_desk_program::{Keeping, Shelf, Slot};
use roster_desk_run::Starter;
use roster_plan::{Phase, Planned, Watcher};
use roster_problem::Problem;
use std::alloc::AllocError;
use std::io;
use std::io::{Read, Write};

/// Takes texts, or none.
#[derive(Drop)]
pub(crate) struct Page {
    takes: bool,
    has_refused: bool,
}

impl Page {
    fn new(takes: bool) -> Page {
        Page {
            takes,
            has_refused: false,
        }
    }
}

impl Slot for Page {
    ghost held = { λ _. None };

    ghost has_refused = { λ page. page.has_refused };

    fn put(&mut self, _text: &[u8]) -> bool {
        if !self.takes {
            self.has_refused = true;
        }
        self.takes
    }

    fn refused(&self) -> bool {
        self.has_refused
    }
}

/// One file, which is at each path. No plan can be kept there.
#[derive(Drop)]
pub(crate) struct One<'a> {
    pub(crate) bytes: &'a [u8],
}

impl<'a> Shelf for One<'a> {
    type Input = &'a [u8];

    type Keep = Page;

    ghost bytes_at = { λ shelf _. Some shelf.bytes.now };

    ghost may_take = { λ _ _ _. ⊤ };

    ghost must_take = { λ _ _ _. ⊥ };

    ghost must_open = { λ _ _. ⊤ };

    ghost may_lack = { λ _ _. ⊥ };

    ghost lends = { λ old _ new. new ≡ old };

    fn open(&self, _path: &str) -> io::Result<&'a [u8]> {
        Ok(self.bytes)
    }

    fn takes(&self, _path: &str, _other: &str) -> Result<bool, AllocError> {
        Ok(false)
    }

    fn lend(&mut self, _path: &str) -> Result<Page, AllocError> {
        Ok(Page::new(false))
    }
}

/// Gives its bytes, or fails.
#[derive(Drop)]
pub(crate) struct Text<'a> {
    bytes: &'a [u8],
    fails: bool,
}

impl Read for Text<'_> {
    fn read(&mut self, buf: &mut [u8]) -> io::Result<usize> {
        if self.fails {
            return Err(io::Error::from(io::ErrorKind::Other));
        }
        let n = self.bytes.len().min(buf.len());
        let (given, rest) = self.bytes.split_at(n);
        buf[..n].copy_from_slice(given);
        self.bytes = rest;
        Ok(n)
    }
}

/// A book at `book`, a report at `report`, and one path more, where a plan can be kept.
#[derive(Drop)]
pub(crate) struct Pages<'a> {
    pub(crate) book: &'a [u8],
    pub(crate) report: &'a [u8],
    /// The path of a file that can be opened and not read.
    pub(crate) broken: &'a str,
    /// Where a plan can be kept.
    pub(crate) keeps: &'a str,
}

impl<'a> Shelf for Pages<'a> {
    type Input = Text<'a>;

    type Keep = Page;

    ghost bytes_at = { λ _ _. None };

    ghost may_take = { λ _ _ _. ⊤ };

    ghost must_take = { λ _ _ _. ⊥ };

    ghost must_open = { λ _ _. ⊥ };

    ghost may_lack = { λ _ _. ⊤ };

    ghost lends = { λ old _ new. new ≡ old };

    fn open(&self, path: &str) -> io::Result<Text<'a>> {
        let bytes = match path {
            "book" | "-" => self.book,
            "report" => self.report,
            _ => return Err(io::Error::from(io::ErrorKind::NotFound)),
        };
        let fails = path == self.broken;
        Ok(Text { bytes, fails })
    }

    fn takes(&self, path: &str, _other: &str) -> Result<bool, AllocError> {
        match path {
            "unknown" => Err(AllocError),
            _ => Ok(path == "./book"),
        }
    }

    fn lend(&mut self, path: &str) -> Result<Page, AllocError> {
        Ok(Page::new(path == self.keeps))
    }
}

/// Files in memory of which none fails.
pub(crate) fn files_of<'a>(book: &'a [u8], report: &'a [u8]) -> Pages<'a> {
    Pages {
        book,
        report,
        broken: "",
        keeps: "kept",
    }
}

/// Remembers whether it was told that a file couldn't be kept, and that the plan has ended.
#[derive(Drop)]
pub(crate) struct Told {
    unkept: u32,
    pub(crate) ended: u32,
}

impl Told {
    /// Told nothing so far.
    pub(crate) fn new() -> Told {
        Told {
            unkept: 0,
            ended: 0,
        }
    }
}

impl Watcher for Told {
    fn tell(
        &mut self,
        _problem: &Problem,
        _base: Option<usize>,
        _step: Phase,
        _planned: &Planned,
    ) {}

    fn leave_out(&mut self, _problem: &Problem, _p: usize, _k: usize) {}
}

impl Starter for Told {
    fn pass_over(&mut self, _lines: &[u8]) {}
}

impl Keeping for Told {
    fn unkept(&mut self, _path: &str) {
        self.unkept = self.unkept.saturating_add(1);
    }

    fn finish(&mut self) {
        self.ended = self.ended.saturating_add(1);
    }
}

/// Takes nothing.
#[derive(Drop)]
pub(crate) struct Full;

impl Write for Full {
    fn write(&mut self, _buf: &[u8]) -> io::Result<usize> {
        Err(io::Error::from(io::ErrorKind::StorageFull))
    }

    fn flush(&mut self) -> io::Result<()> {
        Ok(())
    }
}
