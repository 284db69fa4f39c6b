//! What a store saw last.
use crate::found::Found;

/// What was at a name when a store looked at it last, or what it left there since.
#[derive(Drop)]
pub(crate) struct Look {
    name: String,
    found: Found,
}

impl Look {
    pub(crate) fn new(name: String, found: Found) -> Look {
        Look { name, found }
    }

    /// Nothing, since the store moved it away or removed it.
    pub(crate) fn gone(name: String) -> Look {
        Look {
            name,
            found: Found::Nothing,
        }
    }
}

/// Whether what is at a name now is what was there at the last look, if that was at this name.
pub(crate) fn is_as_seen(look: &Option<Look>, name: &str, now: &Found) -> bool {
    match look {
        Some(look) if look.name.as_str() == name => now.is_as(&look.found),
        _ => true,
    }
}
