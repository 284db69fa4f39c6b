//! Gates, by which tests hold a worker just before it reads a store, hashes, or calls a folder.
/// Where a worker's work passes its gate.
#[derive(Clone, Copy, Debug, PartialEq, Eq)]
pub enum GatePlace {
    /// Just before a read of the store.
    StoreRead,
    /// Just before the digests of a file or of a block are made.
    Digest,
    /// Just before a call of the folder.
    FolderCall,
}

/// What a worker passes at each step that takes long or that others see, and may be held by: a test sees by it in which order
/// the steps come, and what others do meanwhile.
pub trait Gate {
    /// What the gate was shown. Of a gate that is not known, it holds of a store and of calls only if they were once such, both at
    /// one moment, and the gate was shown them: so a contract says by it that the one was called before the other.
    ghost shown: { Self → (S : Type 0) → (W : Type 0) → S → W → Type 0 };

    /// Returns when the worker may go on.
    fn at(&self, place: GatePlace);

    /// Is shown a store and the calls of a folder, as both are now.
    fn show<S, W>(&self, store: &S, calls: &W)
        ensures shown { shown self.now S W store.now calls.now };
}

/// A gate that holds nobody.
#[derive(Clone, Copy, Debug, PartialEq, Eq)]
pub struct OpenGate;

impl Gate for OpenGate {
    ghost use Rattle.std.specs.Prelude.{⊤};

    ghost shown = { λ _ _ _ _ _. ⊤ };

    #[inline]
    fn at(&self, _place: GatePlace) {}

    #[inline]
    fn show<S, W>(&self, _store: &S, _calls: &W) {}
}
