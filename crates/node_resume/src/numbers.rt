//! The numbers of indexes.
ghost use Rattle.std.specs.Prelude.{◌≡◌, ◌≢◌, ◌-◌, ◌^◌, max, min};

/// The number of an index that begins so many nanoseconds after 1970: the nanoseconds, or `u64::MAX` where they are more, and 1
/// for 0, since 0 is no number of an index. Does not allocate. O(1).
pub fn index_id_at(nanoseconds: u128) -> u64
    ensures value { result ≡ max 1 (min nanoseconds (2 ^ 64 - 1)) }
    ensures some { result ≢ 0 }
{
    u64::try_from(nanoseconds).unwrap_or(u64::MAX).max(1)
}
