//! Which folders there are, and what is stored and told of each.
ghost use Rattle.std.specs.Prelude.{◌≡◌, ◌≢◌, ◌∷◌, ◌++◌, [], List, ℕ, bytes_eq, filter, flat_map, map, IfErr, IfOk, OnOk, option_copied};
ghost use Rattle.std.specs.List.{list_any};
ghost use Rattle.node_replay.specs.Recovered.{firsts, ids_of, stored_of};
ghost use Rattle.node_replay.specs.Told.{parts_of};

use bep_messages::{Copied, Text};
use node_journal::{Frame, Part};
use node_state::{State, StoredFolder};
use std::alloc::{AllocError, Global};

/// The ids of the state's folders, and those that the frames bring, each once, where it first stands. Returns `Err` only if out of
/// memory. O(f (s + p)) for f ids, s stored folders and p parts, and the copies of the ids.
pub(crate) fn folder_ids(
    alloc: Global,
    state: &State,
    frames: &[Frame],
) -> Result<Vec<Text>, AllocError>
    ensures ids { IfOk result (λ ids. ids.items ≡ ids_of state.now frames.now) }
    ensures some { IfErr result (λ _. ids_of state.now frames.now ≢ []) }
{
    let mut ids = Vec::new(alloc);
    let stored = state.folders.as_slice();
    add_stored(&mut ids, stored)?;
    for frame in frames {
        let told = frame.folders.as_slice();
        add_told(&mut ids, told)?;
    }
    Ok(ids)
}

// Adds the ids of stored folders that aren't there.
fn add_stored(ids: &mut Vec<Text>, folders: &[StoredFolder]) -> Result<(), AllocError>
    ensures ids { OnOk result ((xs : List (List ℕ)) → ids.old.items ≡ firsts xs →
        ids.new.items ≡ firsts (xs ++ map (λ f. f.id) folders.now)) }
    ensures some { IfErr result (λ _. folders.now ≢ []) }
{
    for folder in folders {
        add(ids, &folder.id)?;
    }
    Ok(())
}

// Adds the ids of parts that aren't there.
fn add_told(ids: &mut Vec<Text>, parts: &[Part]) -> Result<(), AllocError>
    ensures ids { OnOk result ((xs : List (List ℕ)) → ids.old.items ≡ firsts xs →
        ids.new.items ≡ firsts (xs ++ map (λ p. p.id) parts.now)) }
    ensures some { IfErr result (λ _. parts.now ≢ []) }
{
    for part in parts {
        add(ids, &part.id)?;
    }
    Ok(())
}

// Adds the id, if it isn't there.
fn add(ids: &mut Vec<Text>, id: &Text) -> Result<(), AllocError>
    ensures { OnOk result ((xs : List (List ℕ)) → ids.old.items ≡ firsts xs →
        ids.new.items ≡ firsts (xs ++ id.now ∷ [])) }
{
    if has_id(ids.as_slice(), id) {
        return Ok(());
    }
    let new = id.copy()?;
    ids.push(new)?;
    Ok(())
}

fn has_id(ids: &[Text], id: &Text) -> bool
    ensures { result ≡ list_any (λ y. bytes_eq y id.now) ids.now }
{
    ids.iter().any(|known| known.as_str() == id.as_str())
}

/// The first stored folder of this id. O(n) for n folders.
pub(crate) fn stored_of<'a>(folders: &'a [StoredFolder], id: &Text) -> Option<&'a StoredFolder>
    ensures { option_copied result ≡ stored_of id.now folders.now }
{
    folders
        .iter()
        .find(|folder| folder.id.as_str() == id.as_str())
}

/// The parts of this id, in the order of the frames. O(n) for n parts of any id.
pub(crate) fn parts_of<'a>(
    alloc: Global,
    frames: &'a [Frame],
    id: &Text,
) -> Result<Vec<&'a Part>, AllocError>
    ensures { IfOk result (λ parts. map (λ p. p.now) parts.items ≡ parts_of id.now frames.now) }
{
    let mut parts = Vec::new(alloc);
    for frame in frames {
        let more = frame.folders.as_slice();
        add_parts(&mut parts, more, id)?;
    }
    Ok(parts)
}

// Adds those of the parts that are of this id.
fn add_parts<'a>(parts: &mut Vec<&'a Part>, more: &'a [Part], id: &Text) -> Result<(), AllocError>
    ensures { OnOk result (map (λ p. p.now) parts.new.items
        ≡ map (λ p. p.now) parts.old.items ++ filter (λ p. bytes_eq p.id id.now) more.now) }
{
    for part in more {
        if part.id.as_str() == id.as_str() {
            parts.push(part)?;
        }
    }
    Ok(())
}
