//! Names that a folder keeps for itself: `.stfolder`, `.stignore`, `.stversions`, and temporary files.
ghost use Rattle.std.specs.Prelude.{◌≡◌, ◌↔◌, IsTrue};
ghost use Rattle.sync_names.specs.Internal.{IsInternal, is_internal, is_reserved, is_temporary};

use crate::text;

// The beginning and the end of a temporary name, which may not overlap.
const SHORTEST_TEMPORARY: usize = 15;

/// Whether a name is one that a folder keeps for itself: its first component is `.stfolder`,
/// `.stignore` or `.stversions`, or its last component has at least 15 bytes, begins with
/// `.syncthing.` and ends with `.tmp`. O(n).
pub fn is_internal(text: &str) -> bool
    ensures value { result ≡ is_internal text.now }
    ensures meaning { IsTrue result ↔ IsInternal text.now }
{
    let first = text::first_component(text);
    let (_, last) = text::split_last_component(text);
    is_reserved(first) || is_temporary(last)
}

fn is_reserved(component: &str) -> bool
    ensures { result ≡ is_reserved component.now }
{
    component == ".stfolder" || component == ".stignore" || component == ".stversions"
}

/// Whether a component is that of a temporary file, as the last one of a temporary name is: it has at least 15 bytes, begins
/// with `.syncthing.` and ends with `.tmp`. Does not allocate. O(1).
pub fn is_temporary(component: &str) -> bool
    ensures { result ≡ is_temporary component.now }
{
    component.len() >= SHORTEST_TEMPORARY
        && component.starts_with(".syncthing.")
        && component.ends_with(".tmp")
}
