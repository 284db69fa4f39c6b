//! Changes of the two maps of a store in memory: each is made wholly, or runs out of memory and changes nothing.
ghost use Rattle.std.specs.Prelude.{◌≡◌, ◌≢◌, [], true, false, Option, Some, None, is_some, IsNone, IsSome, IfErr, MatchResult, unwrap_or};
ghost use Rattle.file_store.specs.declared.node.Node.TheVariants.{Directory, File};
ghost use Rattle.file_store.specs.Maps.{found_at, put_at};
ghost use Rattle.file_store.specs.Trees.{AreGrounded, with_parents};

use crate::missing::make_parents;
use crate::name_map::NameMap;
use crate::{Content, Node};
use std::alloc::{AllocError, Global};
use sync_version::Moment;

/// The time of files of which no other time is known: 1970-01-01T00:00:00Z.
pub(crate) fn epoch() -> Moment
    ensures { result ≡ 0 }
{
    Moment::new(0).unwrap()
}

/// Makes missing parents, and an empty temporary file in place of one that is there. Allocates only if none is there.
pub(crate) fn make_temp(
    alloc: Global,
    names: &mut NameMap<Node>,
    temps: &mut NameMap<Content>,
    name: &str,
) -> Result<(), AllocError>
    requires grounded { AreGrounded (found_at names.old) (found_at names.old) }
    requires temps_grounded { AreGrounded (found_at names.old) (found_at temps.old) }
    ensures names { MatchResult result
        (λ _. found_at names.new ≡ with_parents name.now (found_at names.old))
        (λ _. found_at names.new ≡ found_at names.old) }
    ensures temps { MatchResult result
        (λ _. found_at temps.new ≡ put_at name.now (Some []) (found_at temps.old))
        (λ _. found_at temps.new ≡ found_at temps.old) }
    ensures failed { IfErr result (λ _. found_at temps.old name.now ≡ None) }
{
    if temps.contains(name) {
        temps.replace(name, Content::new(alloc));
        return Ok(());
    }
    temps.insert(alloc, name, Content::new(alloc))?;
    if make_parents(alloc, names, name).is_err() {
        temps.remove(name);
        return Err(AllocError);
    }
    Ok(())
}

/// Puts the temporary file of a name in its place. Allocates only if nothing is there.
pub(crate) fn commit_temp(
    alloc: Global,
    names: &mut NameMap<Node>,
    temps: &mut NameMap<Content>,
    name: &str,
) -> Result<(), AllocError>
    requires there { IsSome (found_at temps.old name.now) }
    ensures names { MatchResult result
        (λ _. found_at names.new ≡ put_at name.now (Some (File (unwrap_or (found_at temps.old name.now) []) 0)) (found_at names.old))
        (λ _. found_at names.new ≡ found_at names.old) }
    ensures temps { MatchResult result
        (λ _. found_at temps.new ≡ put_at name.now None (found_at temps.old))
        (λ _. found_at temps.new ≡ found_at temps.old) }
    ensures failed { IfErr result (λ _. found_at names.old name.now ≡ None) }
{
    if !names.contains(name) {
        names.insert(alloc, name, Node::Directory)?;
    }
    if let Some(bytes) = temps.remove(name) {
        names.replace(name, Node::File(bytes, epoch()));
    }
    Ok(())
}

/// Moves what is at a name to another, at which nothing is.
pub(crate) fn rename(
    alloc: Global,
    names: &mut NameMap<Node>,
    from: &str,
    to: &str,
) -> Result<(), AllocError>
    requires there { IsSome (found_at names.old from.now) }
    requires free { found_at names.old to.now ≡ None }
    ensures { MatchResult result
        (λ _. found_at names.new ≡ put_at to.now (found_at names.old from.now) (put_at from.now None (found_at names.old)))
        (λ _. found_at names.new ≡ found_at names.old) }
{
    names.insert(alloc, to, Node::Directory)?;
    if let Some(node) = names.remove(from) {
        names.replace(to, node);
    }
    Ok(())
}

/// Makes missing parents, and a directory at a name.
pub(crate) fn make_dir(
    alloc: Global,
    names: &mut NameMap<Node>,
    name: &str,
) -> Result<(), AllocError>
    requires grounded { AreGrounded (found_at names.old) (found_at names.old) }
    requires free { found_at names.old name.now ≡ None }
    ensures { MatchResult result
        (λ _. found_at names.new ≡ put_at name.now (Some Directory) (with_parents name.now (found_at names.old)))
        (λ _. found_at names.new ≡ found_at names.old) }
{
    let below = format!(in alloc; "{name}/")?;
    make_parents(alloc, names, below.as_str())
}
