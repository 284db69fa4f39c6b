//! What peers say that they were told.
ghost use Rattle.std.specs.Prelude.{◌≡◌};
ghost use Rattle.node_keeper.specs.Claims.{may_be_told};

/// Whether a peer may have been told of this device's records up to `claimed`: those up to `opened` were on the disk when the node began, and the node told
/// the peer of those up to `told`. What it was told before is on the disk first, so if it was told of more, the disk is an older one.
pub(crate) fn may_be_told(opened: u64, told: u64, claimed: u64) -> bool
    ensures { result ≡ may_be_told opened told claimed }
{
    claimed <= opened.max(told)
}
