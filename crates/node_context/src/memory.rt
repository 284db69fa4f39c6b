//! How much memory the program holds.
use std::fs::{File, Files};
use std::io::Read;
use std::str;

/// What the system says of the memory of the program that asks (proc_pid_statm(5)).
const STATM: &str = "/proc/self/statm";

/// The bytes of a page, by which it counts.
const PAGE: u64 = 4096;

/// More bytes than it has.
const MOST_BYTES: usize = 256;

/// What knows how much memory the program holds. Each handle that has [`Files`] does; a thread takes it by this trait.
pub trait HeldMemory {
    /// How many bytes of memory the program holds, where the system says that.
    fn memory_held(&self) -> Option<u64>;
}

impl<R: Files<File = File>> HeldMemory for R {
    fn memory_held(&self) -> Option<u64> {
        let mut buffer = [0u8; MOST_BYTES];
        let mut file = File::open(self, STATM).ok()?;
        let count = file.read(&mut buffer).ok()?;
        held_in(str::from_utf8(buffer.get(..count)?).ok()?)
    }
}

// The pages that it holds are the second number.
fn held_in(text: &str) -> Option<u64> {
    let pages = text.split(' ').nth(1)?.parse::<u64>().ok()?;
    Some(pages.saturating_mul(PAGE))
}
