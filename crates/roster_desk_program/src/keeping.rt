//! What is known of a plan is kept in a file.

ghost use Rattle.std.specs.Prelude.{◌≡◌, ◌≢◌, IfSome, None, false, true};
ghost use Rattle.roster_plan.specs.Planned.{IsKnown};
ghost use Rattle.roster_desk_run.specs.Run.{IsKnownText};
ghost use Rattle.roster_desk_program.specs.Keeping.{HasRefused, is_lost, kept_of};

use crate::slots::Slot;
use roster_desk_run::{Starter, write_known};
use roster_plan::{Phase, Planned, Watcher};
use roster_problem::Problem;
use roster_watched::Watched;
use std::alloc::Global;

/// Who is told that a plan isn't kept any more, and when it has ended.
pub trait Keeping {
    /// The file at the path can't be written.
    fn unkept(&mut self, path: &str);

    /// Nothing more is known of the plan: what waits is to be told.
    fn finish(&mut self);
}

/// What became of the file that keeps a plan.
#[derive(Clone, Copy)]
pub(crate) enum Kept {
    /// It has what was known last, if there is such a file.
    Fine,
    /// It couldn't be put.
    Refused,
    /// Memory for its text ran out.
    Short,
}

impl Kept {
    /// Whether the file doesn't have what was known last.
    pub(crate) fn is_lost(self) -> bool
        ensures { result ≡ is_lost self }
    {
        match self {
            Kept::Fine => false,
            Kept::Refused | Kept::Short => true,
        }
    }
}

/// The file that keeps a plan.
#[derive(Drop)]
pub(crate) struct KeptFile<'p, K> {
    pub(crate) path: &'p str,
    pub(crate) slot: K,
    // Whether memory for a text ran out.
    pub(crate) is_short: bool,
}

impl<K: Slot> KeptFile<'_, K> {
    /// Puts what is known of the plan. Whether that could be done.
    fn keep(&mut self, alloc: Global, problem: &Problem, planned: &Planned) -> bool
        requires { IsKnown problem.now planned.now }
        ensures held { result ≡ true → IfSome (K.held self.new.slot) (IsKnownText problem.now) }
        ensures goes { result ≡ true → kept_of (K.has_refused self.new.slot) self.new.is_short
            ≡ kept_of (K.has_refused self.old.slot) self.old.is_short }
        ensures lost { result ≡ false
            → is_lost (kept_of (K.has_refused self.new.slot) self.new.is_short) ≡ true }
    {
        let mut writer = Watched::new(Vec::new(alloc));
        if write_known(alloc, problem, planned, &mut writer).is_err() {
            self.is_short = true;
            return false;
        }
        self.slot.put(writer.inner().as_slice())
    }

    /// What became of it so far.
    fn state(&self) -> Kept
        ensures { result ≡ kept_of (K.has_refused self.now.slot) self.now.is_short }
    {
        if self.slot.refused() {
            return Kept::Refused;
        }
        if self.is_short {
            Kept::Short
        } else {
            Kept::Fine
        }
    }
}

/// Keeps what is known of a plan in a file, if there is one and as long as it can be put, and tells it on.
#[derive(Drop)]
pub(crate) struct Keeper<'p, 'w, K, P> {
    pub(crate) alloc: Global,
    pub(crate) file: Option<KeptFile<'p, K>>,
    pub(crate) watcher: &'w mut P,
}

impl<K: Slot, P> Keeper<'_, '_, K, P> {
    /// What became of the file.
    pub(crate) fn state(&self) -> Kept
        ensures file { IfSome self.now.file
            (λ file. result ≡ kept_of (K.has_refused file.slot) file.is_short) }
        ensures none { self.now.file ≡ None → result ≡ Kept.Fine }
        ensures refused { result ≡ Kept.Refused → HasRefused K.has_refused }
    {
        match &self.file {
            Some(file) => file.state(),
            None => Kept::Fine,
        }
    }
}

impl<K: Slot, P: Watcher + Keeping> Watcher for Keeper<'_, '_, K, P> {
    fn tell(&mut self, problem: &Problem, base: Option<usize>, step: Phase, planned: &Planned) {
        self.watcher.tell(problem, base, step, planned);
        let Some(file) = &mut self.file else {
            return;
        };
        let path = file.path;
        if !file.state().is_lost() && !file.keep(self.alloc, problem, planned) {
            self.watcher.unkept(path);
        }
    }

    fn leave_out(&mut self, problem: &Problem, p: usize, k: usize) {
        self.watcher.leave_out(problem, p, k);
    }
}

impl<K, P: Starter> Starter for Keeper<'_, '_, K, P> {
    fn pass_over(&mut self, lines: &[u8]) {
        self.watcher.pass_over(lines);
    }
}
