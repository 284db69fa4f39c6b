//! The greatest sequences that other devices announced, so that they need not be looked for among all records.
ghost use Rattle.std.specs.Prelude.{bytes_eq, ◌≡◌, ◌≢◌, ◌<◌, ◌≤◌, List, ℕ, filter, find, length, map, nat_le, not, option_copied, vec_capacity, vec_len};
ghost use Rattle.std.specs.List.{list_all};
ghost use Rattle.folder_index.specs.Devices.{greatest_of};
ghost use Rattle.folder_index.specs.Noted.{loosened, nothing_of, noted_of, raised};

use sync_record::{DeviceId, Record};

/// What is noted of a device: no record of it has a greater sequence, and where `is_exact`, its greatest sequence is this one, or 0
/// without any.
#[derive(Debug, Clone, Copy)]
pub(crate) struct Noted {
    pub(crate) device: DeviceId,
    pub(crate) greatest: u64,
    pub(crate) is_exact: bool,
}

/// What is noted of a device, if anything is. O(d) for d devices.
fn found(noted: &[Noted], device: DeviceId) -> Option<&Noted>
    ensures { option_copied result ≡ find (λ k. bytes_eq k.device device) noted.now }
{
    noted.iter().find(|each| each.device == device)
}

/// What is noted of a device; where nothing is, it announced nothing. O(d) for d devices.
pub(crate) fn noted_of(noted: &[Noted], device: DeviceId) -> Noted
    ensures { result ≡ noted_of noted.now device }
{
    match found(noted, device) {
        Some(each) => *each,
        None => Noted {
            device,
            greatest: 0,
            is_exact: true,
        },
    }
}

/// Notes this of a device, in place of what is noted of it. Does not allocate. O(d) for d devices.
pub(crate) fn note(noted: &mut Vec<Noted>, new: Noted)
    requires { length (filter (λ k. not (bytes_eq k.device new.device)) noted.old.items)
        < vec_capacity noted.old }
    ensures here { noted_of noted.new.items new.device ≡ new }
    ensures others { (d : List ℕ) → d ≢ new.device →
        noted_of noted.new.items d ≡ noted_of noted.old.items d }
{
    forget(noted, new.device);
    noted.push_reserved(new);
}

/// Forgets what is noted of a device. Does not allocate. O(d) for d devices.
fn forget(noted: &mut Vec<Noted>, device: DeviceId)
    ensures taken { noted.new.items
        ≡ filter (λ k. not (bytes_eq k.device device)) noted.old.items }
    ensures capacity { vec_capacity noted.new ≡ vec_capacity noted.old }
{
    noted.retain(|each| each.device != device);
}

/// Notes that a record of the device is taken away. Does not allocate. O(d) for d devices.
pub(crate) fn loosen(noted: &mut Vec<Noted>, device: DeviceId)
    ensures here { noted_of noted.new.items device ≡ loosened (noted_of noted.old.items device) }
    ensures others { (d : List ℕ) → d ≢ device →
        noted_of noted.new.items d ≡ noted_of noted.old.items d }
{
    if let Some(old) = found(noted.as_slice(), device) {
        let new = loosened(*old);
        note(noted, new);
    }
}

/// Notes that the device announces nothing any more. Does not allocate. O(d) for d devices.
pub(crate) fn reset(noted: &mut Vec<Noted>, device: DeviceId)
    ensures here { noted_of noted.new.items device ≡ nothing_of device }
    ensures others { (d : List ℕ) → d ≢ device →
        noted_of noted.new.items d ≡ noted_of noted.old.items d }
{
    forget(noted, device);
}

/// What is noted once a record is taken away. O(1).
fn loosened(old: Noted) -> Noted
    ensures { result ≡ loosened old }
{
    Noted {
        device: old.device,
        greatest: old.greatest,
        is_exact: old.greatest == 0,
    }
}

/// What is noted once the device announces these records. O(n) for n records.
pub(crate) fn raised(old: Noted, records: &[Record]) -> Noted
    ensures { result ≡ raised records.now old }
{
    Noted {
        device: old.device,
        greatest: old.greatest.max(greatest_in(records)),
        is_exact: reach(records, old.greatest),
    }
}

/// The greatest sequence of records, 0 without any. O(n) for n records.
fn greatest_in(records: &[Record]) -> u64
    ensures { result ≡ greatest_of (map (λ r. r.sequence) records.now) }
{
    records
        .iter()
        .map(|announced| announced.sequence())
        .fold(0, |greatest, sequence| sequence.max(greatest))
}

/// Whether no record has a lesser sequence. O(n) for n records.
fn reach(records: &[Record], least: u64) -> bool
    ensures { result ≡ list_all (λ r. nat_le least r.sequence) records.now }
{
    records
        .iter()
        .all(|announced| least <= announced.sequence())
}
