//! The parts of a text before and after a slash or a dot.
ghost use Rattle.std.specs.Prelude.{◌≡◌};
ghost use Rattle.sync_names.specs.Components.{components, first_of, folder_of, last_component};
ghost use Rattle.sync_names.specs.Extension.{stem_of, extension_of};

/// The part before the first slash, or the whole text.
pub(crate) fn first_component(text: &str) -> &str
    ensures { result.now ≡ first_of (components text.now) }
{
    match text.split_once('/') {
        Some((first, _)) => first,
        None => text,
    }
}

/// The text cut after its last slash: the folder with that slash, and the last component.
pub(crate) fn split_last_component(text: &str) -> (&str, &str)
    ensures folder { result.0.now ≡ folder_of text.now }
    ensures last { result.1.now ≡ last_component text.now }
{
    match text.rfind('/') {
        Some(slash) => text.split_at(slash + 1),
        None => ("", text),
    }
}

/// A component cut before its last dot: the stem, and the extension with that dot.
pub(crate) fn split_extension(component: &str) -> (&str, &str)
    ensures stem { result.0.now ≡ stem_of component.now }
    ensures extension { result.1.now ≡ extension_of component.now }
{
    match component.rfind('.') {
        Some(dot) => component.split_at(dot),
        None => (component, ""),
    }
}
