//! Whether a store's calls give up.
ghost use Rattle.std.specs.Prelude.{◌≡◌, true, false};

use sync_names::SafeName;

/// Who says whether what reads, or prepares, is to give up, and whether what was prepared may be put in place.
pub trait Ends {
    /// It may say that what reads or prepares is to give up.
    ghost may_end: { Self → Type 0 };

    /// It may say that what was prepared is not to be put in place.
    ghost may_hold: { Self → Type 0 };

    /// Whether what reads, or prepares, is to give up.
    fn is_over(&self) -> bool
        ensures { result ≡ true → may_end self.now };

    /// Whether what is at the name may be changed, or what was prepared for it be put in place. May wait until that is known.
    fn is_ready(&self, name: &SafeName) -> bool
        ensures { result ≡ false → may_hold self.now };
}
