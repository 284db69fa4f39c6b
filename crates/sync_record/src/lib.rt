//! What a device says of one name of a folder, which of two devices is preferred, and files whose blocks are all there.
#![tactic(auto)]

mod assembly;
mod content;
mod device;
mod fields;
mod file;
mod info;
mod kind;
pub mod laws;
mod own;
mod preference;
mod put;
mod record;
mod same;

pub use assembly::{Assembled, Assembly};
pub use content::same_content;
pub use device::DeviceId;
pub use kind::Kind;
pub use own::Edit;
pub use preference::preferred;
pub use put::Put;
pub use record::Record;
pub use sync_blocks::{Block, tiles};
pub use sync_names::SafeName;
