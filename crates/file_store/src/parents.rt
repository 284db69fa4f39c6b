//! The parents of a name.
ghost use Rattle.std.specs.Prelude.{◌≡◌, ◌<◌, ◌||◌, false, bytes_eq, length, MatchOption, IfSome};
ghost use Rattle.file_store.specs.Names.{Name, is_parent};

/// The directory that a name is in, if it has a parent. Does not allocate. O(n).
pub fn parent_of(name: &str) -> Option<&str>
    ensures parents { MatchOption result
        ((q : Name) → is_parent q name.now ≡ false)
        (λ p. (q : Name) → is_parent q name.now ≡ (bytes_eq p.now q || is_parent q p.now)) }
    ensures shorter { IfSome result (λ p. length p.now < length name.now) }
{
    let slash = name.rfind('/')?;
    Some(name.split_at(slash).0)
}

/// Whether a name is below a directory. Does not allocate. O(n).
pub fn is_below(name: &str, dir: &str) -> bool
    ensures { result ≡ is_parent dir.now name.now }
{
    let (name, dir) = (name.as_bytes(), dir.as_bytes());
    if name.len() <= dir.len() {
        return false;
    }
    if name[dir.len()] != b'/' {
        return false;
    }
    &name[..dir.len()] == dir
}
