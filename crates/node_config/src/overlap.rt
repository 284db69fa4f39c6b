//! Folders and a state of which one lies within another.
ghost use Rattle.std.specs.Prelude.{◌≡◌, ◌↔◌, ℕ, List, [], true};
ghost use Rattle.node_config.specs.Overlaps.{IsWithin, are_within, checked, fault_of, first_nested, first_overlap, is_beside, is_within, overlap_of, page_checked, page_problem, state_in, stem, with_earlier};
ghost use Rattle.std.specs.List.{position};

use crate::fault::ConfigFault;
use crate::key::{Key, Problem, TablePlace};
use bep_messages::Text;

/// Two paths of which one lies within the other. Folders are named by their numbers in the configuration, counted from 1.
#[derive(Clone, Copy, Debug, PartialEq, Eq)]
pub enum Overlap {
    /// The first folder lies within the second.
    Inside(usize, usize),
    /// The state lies within the folder.
    StateIn(usize),
}

/// A path lies within another one exactly if it is the same, or goes on after it with a slash; what is absolute lies within the root.
pub fn inner_paths_go_on_after_a_slash()
    ensures { (inner outer : List ℕ) → (is_within inner outer ≡ true) ↔ IsWithin inner outer }
{}

/// Fails if a folder lies within another one, or is the same, or if the state lies within a folder or is one. The paths are canonical: absolute, without
/// links, `.`, `..` and a slash at the end. O(n²) for n folders.
pub fn check_paths(folders: &[Text], state: &str) -> Result<(), ConfigFault>
    ensures { result ≡ checked (first_overlap folders.now state.now) }
{
    match first_overlap(folders, state) {
        Some(overlap) => Err(fault_of(overlap)),
        None => Ok(()),
    }
}

/// Fails if the page that is kept of how all is lies within a folder or is one: it would be kept alike too, and change for ever; and if it is the configuration, the
/// state, or a file beside that, whose place it would take. The paths are canonical. O(n) for n folders.
pub fn check_page(
    folders: &[Text],
    config: &str,
    state: &str,
    page: &str,
) -> Result<(), ConfigFault>
    ensures { result ≡ page_checked (page_problem folders.now config.now state.now page.now) }
{
    match page_problem(folders, config, state, page) {
        Some(problem) => Err(ConfigFault::BadKey {
            place: TablePlace::Node,
            key: Key::Status,
            problem,
        }),
        None => Ok(()),
    }
}

/// What is wrong with the path of a page, if something is.
fn page_problem(folders: &[Text], config: &str, state: &str, page: &str) -> Option<Problem>
    ensures { result ≡ page_problem folders.now config.now state.now page.now }
{
    match first_around(folders, page) {
        Some(place) => Some(Problem::Inside { folder: place + 1 }),
        None if page == config => Some(Problem::OfConfig),
        None if is_beside(page, state) => Some(Problem::OfState),
        None => None,
    }
}

/// Whether the path is that of the state, or goes on after it with a dot, as those of the files do that are kept beside it.
fn is_beside(path: &str, state: &str) -> bool
    ensures { result ≡ is_beside path.now state.now }
{
    if path == state {
        return true;
    }
    let (path, state) = (path.as_bytes(), state.as_bytes());
    path.starts_with(state) && path.get(state.len()) == Some(&b'.')
}

/// How it is said: the path that lies within the other is wrong.
fn fault_of(overlap: Overlap) -> ConfigFault
    ensures { result ≡ fault_of overlap }
{
    match overlap {
        Overlap::Inside(inner, folder) => ConfigFault::BadKey {
            place: TablePlace::Folder(inner),
            key: Key::Path,
            problem: Problem::Inside { folder },
        },
        Overlap::StateIn(folder) => ConfigFault::BadKey {
            place: TablePlace::Node,
            key: Key::State,
            problem: Problem::Inside { folder },
        },
    }
}

/// The first of the folders, in their order, that overlaps an earlier one, with the first such; if there is none, the state with the first folder that it
/// lies within. O(n²) for n folders.
pub fn first_overlap(folders: &[Text], state: &str) -> Option<Overlap>
    ensures { result ≡ first_overlap folders.now state.now }
{
    match first_nested(folders) {
        Some(overlap) => Some(overlap),
        None => state_in(folders, state),
    }
}

/// The first of the folders that overlaps an earlier one.
fn first_nested(folders: &[Text]) -> Option<Overlap>
    ensures { result ≡ first_nested [] folders.now }
{
    for (place, folder) in folders.iter().enumerate() {
        if let Some(overlap) = with_earlier(&folders[..place], folder.as_str()) {
            return Some(overlap);
        }
    }
    None
}

/// The folder after these, with the first of them that it overlaps.
fn with_earlier(earlier: &[Text], folder: &str) -> Option<Overlap>
    ensures { result ≡ with_earlier earlier.now folder.now (position (are_within folder.now) earlier.now) }
{
    match first_near(earlier, folder) {
        Some(place) => {
            let other = earlier[place].as_str();
            Some(overlap_of(earlier.len() + 1, folder, place + 1, other))
        }
        None => None,
    }
}

/// The first of the folders that the state lies within.
fn state_in(folders: &[Text], state: &str) -> Option<Overlap>
    ensures { result ≡ state_in (position (is_within state.now) folders.now) }
{
    match first_around(folders, state) {
        Some(place) => Some(Overlap::StateIn(place + 1)),
        None => None,
    }
}

/// The place of the first of the folders that the path lies within.
fn first_around(folders: &[Text], path: &str) -> Option<usize>
    ensures { result ≡ position (is_within path.now) folders.now }
{
    folders
        .iter()
        .position(|folder| is_within(path, folder.as_str()))
}

/// The place of the first of the earlier folders that overlaps this one.
fn first_near(earlier: &[Text], folder: &str) -> Option<usize>
    ensures { result ≡ position (are_within folder.now) earlier.now }
{
    earlier.iter().position(|other| is_within(folder, other.as_str())
        || is_within(other.as_str(), folder))
}

/// Which of two folders, with their numbers, lies within the other.
fn overlap_of(number: usize, folder: &str, earlier: usize, other: &str) -> Overlap
    ensures { result ≡ overlap_of number folder.now earlier other.now }
{
    if is_within(folder, other) {
        Overlap::Inside(number, earlier)
    } else {
        Overlap::Inside(earlier, number)
    }
}

/// Whether the path is the other one, or goes on after it with a slash.
fn is_within(inner: &str, outer: &str) -> bool
    ensures { result ≡ is_within inner.now outer.now }
{
    if inner == outer {
        return true;
    }
    let stem = stem(outer).as_bytes();
    let inner = inner.as_bytes();
    inner.starts_with(stem) && inner.get(stem.len()) == Some(&b'/')
}

/// What stands before the slash that follows a path: the root has none but its own.
fn stem(path: &str) -> &str
    ensures { result.now ≡ stem path.now }
{
    if path == "/" { "" } else { path }
}
