//! The interface of a store of files: list, stat, read, temporary files and their commit, rename, remove, directories.
ghost use Rattle.std.specs.Prelude.{◌≡◌, ◌≢◌, ℕ, ◌≤◌, Bool, true, length, IfOk, IfErr, Err, Result};
ghost use Rattle.file_store.specs.declared.refusal.StoreRefusal.TheVariants.{StoreFault, NotEmpty, BadParent};
ghost use Rattle.file_store.specs.declared.refusal.StoreRefusal.{StoreRefusal};
ghost use Rattle.file_store.specs.Trees.{Tree, IsTree};
ghost use Rattle.file_store.specs.Refusals.{count_after, IsPlain};
ghost use Rattle.file_store.specs.Listings.{IsInOrder, IsListing};
ghost use Rattle.file_store.specs.Asked.{Call, Value, ListAll, StatAt, ReadAt, MakeTemp, WriteAt, CommitTemp, DropTemp, Rename, Remove, MakeDir, RemoveDir};
ghost use Rattle.file_store.specs.Calls.{Stats, Reads, MakesTemp, Writes, Commits, Drops, Renames, Removes, MakesDir, RemovesDir};

use crate::{Listing, Stat, StoreRefusal};
use sync_names::SafeName;

/// A store of files, by their safe names.
///
/// Each name may have a temporary file besides what is there; it is no other name's file and isn't listed. Symbolic links are
/// not followed. Several stores may be on one folder.
///
/// A call returns `StoreFault` if the store fails, or if the call does not fit what is there, and then raises `faults` by one.
/// After `OutOfMemory`, `NotEmpty` and `BadParent` nothing has changed.
pub trait FileStore {
    /// Whether the store keeps what is written, and nobody else changes it: each call then does to `tree` what its definition
    /// says.
    ghost keeps: { Bool };

    /// Holds if the next call may return `StoreFault` for a reason outside the tree; it may then have been done, or a part of it.
    ghost fails: { Self → Type 0 };

    /// What it has.
    ghost tree: { Self → Tree };

    /// How many faults it has returned.
    ghost fault_count: { Self → ℕ };

    /// What each call gives besides, whether the store keeps or not: the store before, the call, its answer, and the store after.
    ghost gives: { Self → (call : Call) → Result (Value call) StoreRefusal → Self → Type 0 };

    /// How many times the store has returned `StoreFault`, at most `u64::MAX`. O(1).
    fn faults(&self) -> u64
        ensures value { result ≡ fault_count self.now }
        ensures tree { keeps ≡ true → IsTree (tree self.now) };

    /// The safe names of all files and directories, in the order of their bytes. All else is left out. A directory that cannot be
    /// read is listed, and named in `unread`; a fault only if the store itself cannot be read.
    fn list(&mut self) -> Result<Listing, StoreRefusal>
        ensures order { IfOk result IsInOrder }
        ensures lists { keeps ≡ true → IfOk result (λ listing. IsListing (tree self.old).names listing) }
        ensures failed { keeps ≡ true → IfErr result (λ refusal. refusal ≡ StoreFault → fails self.old) }
        ensures kept { keeps ≡ true → tree self.new ≡ tree self.old }
        ensures refusals { IfErr result IsPlain }
        ensures counted { fault_count self.new ≡ count_after result (fault_count self.old) }
        ensures gives { gives self.old ListAll result self.new }
        ensures tree { keeps ≡ true → IsTree (tree self.new) };

    /// What is at a name; nothing if a parent isn't a directory. Only a store that does not keep, as one on a disk, may say
    /// `Stat::Other`: something is there that is neither a file nor a directory.
    fn stat(&mut self, name: &SafeName) -> Result<Stat, StoreRefusal>
        ensures stats { keeps ≡ true → Stats (fails self.old) (tree self.old) name.now result (tree self.new) }
        ensures refusals { IfErr result IsPlain }
        ensures counted { fault_count self.new ≡ count_after result (fault_count self.old) }
        ensures gives { gives self.old (StatAt name.now) result self.new }
        ensures tree { keeps ≡ true → IsTree (tree self.new) };

    /// Reads bytes of a file from an offset on into the front of the buffer. Returns how many: 0 only at the end of the file, for
    /// an empty buffer, or if no file is there.
    fn read_at(
        &mut self,
        name: &SafeName,
        offset: u64,
        buffer: &mut [u8],
    ) -> Result<usize, StoreRefusal>
        ensures bound { IfOk result (λ k. k ≤ length buffer.new) }
        ensures reads { keeps ≡ true → Reads (fails self.old) (tree self.old) name.now offset buffer.old buffer.new result (tree self.new) }
        ensures refusals { IfErr result IsPlain }
        ensures counted { fault_count self.new ≡ count_after result (fault_count self.old) }
        ensures gives { gives self.old (ReadAt name.now offset buffer.old buffer.new) result self.new }
        ensures tree { keeps ≡ true → IsTree (tree self.new) };

    /// Makes an empty temporary file for a name, in place of one that is there, and missing parents. Fails with `BadParent` if a
    /// parent is there and isn't a directory.
    ///
    /// A store on a disk keeps the temporary file beside the file, under a name of its own. A fault if a directory is there:
    /// nothing is made. A fault too if a missing parent would stand where the temporary file of another name may stand:
    /// neither this call nor `make_dir` makes such a parent.
    fn make_temp(&mut self, name: &SafeName) -> Result<(), StoreRefusal>
        ensures makes { keeps ≡ true → MakesTemp (fails self.old) (tree self.old) name.now result (tree self.new) }
        ensures refusals { result ≢ Err NotEmpty }
        ensures counted { fault_count self.new ≡ count_after result (fault_count self.old) }
        ensures gives { gives self.old (MakeTemp name.now) result self.new }
        ensures tree { keeps ≡ true → IsTree (tree self.new) };

    /// Writes all bytes to the temporary file of a name, from an offset on, with 0 in a gap. A fault if there is no such file.
    fn write_at(&mut self, name: &SafeName, offset: u64, bytes: &[u8]) -> Result<(), StoreRefusal>
        ensures writes { keeps ≡ true → Writes (fails self.old) (tree self.old) name.now offset bytes.now result (tree self.new) }
        ensures refusals { IfErr result IsPlain }
        ensures counted { fault_count self.new ≡ count_after result (fault_count self.old) }
        ensures gives { gives self.old (WriteAt name.now offset bytes.now) result self.new }
        ensures tree { keeps ≡ true → IsTree (tree self.new) };

    /// Puts the temporary file of a name in its place, over a file that is there. A fault if there is no temporary file, or if
    /// a directory is there.
    fn commit_temp(&mut self, name: &SafeName) -> Result<(), StoreRefusal>
        ensures commits { keeps ≡ true → Commits (fails self.old) (tree self.old) name.now result (tree self.new) }
        ensures refusals { IfErr result IsPlain }
        ensures counted { fault_count self.new ≡ count_after result (fault_count self.old) }
        ensures gives { gives self.old (CommitTemp name.now) result self.new }
        ensures tree { keeps ≡ true → IsTree (tree self.new) };

    /// Removes the temporary file of a name, if there is one.
    fn drop_temp(&mut self, name: &SafeName) -> Result<(), StoreRefusal>
        ensures drops { keeps ≡ true → Drops (fails self.old) (tree self.old) name.now result (tree self.new) }
        ensures refusals { IfErr result IsPlain }
        ensures counted { fault_count self.new ≡ count_after result (fault_count self.old) }
        ensures gives { gives self.old (DropTemp name.now) result self.new }
        ensures tree { keeps ≡ true → IsTree (tree self.new) };

    /// Moves a file to another name. Fails with `BadParent` if a parent of that name is there and isn't a directory; else a
    /// fault if `from` isn't a file, if something is at `to`, or if a parent of `to` is missing.
    fn rename(&mut self, from: &SafeName, to: &SafeName) -> Result<(), StoreRefusal>
        ensures renames { keeps ≡ true → Renames (fails self.old) (tree self.old) from.now to.now result (tree self.new) }
        ensures refusals { result ≢ Err NotEmpty }
        ensures counted { fault_count self.new ≡ count_after result (fault_count self.old) }
        ensures gives { gives self.old (Rename from.now to.now) result self.new }
        ensures tree { keeps ≡ true → IsTree (tree self.new) };

    /// Removes a file. A fault if no file is there.
    fn remove(&mut self, name: &SafeName) -> Result<(), StoreRefusal>
        ensures removes { keeps ≡ true → Removes (fails self.old) (tree self.old) name.now result (tree self.new) }
        ensures refusals { IfErr result IsPlain }
        ensures counted { fault_count self.new ≡ count_after result (fault_count self.old) }
        ensures gives { gives self.old (Remove name.now) result self.new }
        ensures tree { keeps ≡ true → IsTree (tree self.new) };

    /// Makes a directory, and missing parents. Fails with `BadParent` if a parent is there and isn't a directory; a fault if
    /// something is at the name.
    fn make_dir(&mut self, name: &SafeName) -> Result<(), StoreRefusal>
        ensures makes { keeps ≡ true → MakesDir (fails self.old) (tree self.old) name.now result (tree self.new) }
        ensures refusals { result ≢ Err NotEmpty }
        ensures counted { fault_count self.new ≡ count_after result (fault_count self.old) }
        ensures gives { gives self.old (MakeDir name.now) result self.new }
        ensures tree { keeps ≡ true → IsTree (tree self.new) };

    /// Removes a directory. Fails with `NotEmpty` if a file, a directory or a temporary file is in it; a fault if no directory is
    /// there.
    fn remove_dir(&mut self, name: &SafeName) -> Result<(), StoreRefusal>
        ensures removes { keeps ≡ true → RemovesDir (fails self.old) (tree self.old) name.now result (tree self.new) }
        ensures refusals { result ≢ Err BadParent }
        ensures counted { fault_count self.new ≡ count_after result (fault_count self.old) }
        ensures gives { gives self.old (RemoveDir name.now) result self.new }
        ensures tree { keeps ≡ true → IsTree (tree self.new) };
}
