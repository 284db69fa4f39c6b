//! What the definitions say, as contracts of functions that do nothing.
ghost use Rattle.std.specs.Prelude.{ℕ, List, IsUtf8};
ghost use Rattle.file_dir.specs.Versions.{IsVersionName, IsVersionOf};

/// A version's moment is read from its name again, also where that is cut.
pub fn moment_in_version_name()
    ensures { (last name : List ℕ) (moment : ℕ) → IsUtf8 last → IsVersionName last moment name → IsVersionOf moment name }
{}
