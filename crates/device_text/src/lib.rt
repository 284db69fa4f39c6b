//! A device's identity as text: 64 hexadecimal digits, or the form in which Syncthing shows it.
#![tactic(auto)]

mod base32;
mod check;
mod fault;
pub mod laws;
mod read;
mod write;

pub use fault::DeviceFault;
pub use read::read_device;
pub use write::device_text;
