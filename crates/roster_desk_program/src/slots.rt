//! The file that keeps a plan.

ghost use Rattle.std.specs.Prelude.{◌≡◌, Bool, List, ℕ, Option, IfSome, true, false};
ghost use Rattle.roster_desk_program.specs.Keeping.{IsPlanText};

/// A file that texts of plans are put into, and nothing else.
pub trait Slot {
    // What the file holds, so far as that is known.
    ghost held: { Self → Option (List ℕ) };

    // Whether it couldn't take some text.
    ghost has_refused: { Self → Bool };

    /// Puts a file with this text in place of the one that is there. Whether that could be done; if not, what
    /// is there stays.
    fn put(&mut self, text: &[u8]) -> bool
        requires { IsPlanText text.now }
        ensures held { result ≡ true → IfSome (held self.new) (λ bytes. bytes ≡ text.now) }
        ensures goes { result ≡ true → has_refused self.new ≡ has_refused self.old }
        ensures fails { result ≡ false → has_refused self.new ≡ true };

    /// Whether it couldn't take some text.
    fn refused(&self) -> bool
        ensures { result ≡ has_refused self.now };
}
