//! A record of a name together with the device that announces it.
use sync_record::{DeviceId, Record};

/// What a device announces of a name.
#[derive(Debug, PartialEq, Eq, Drop)]
pub struct Announcement {
    pub device: DeviceId,
    pub record: Record,
}
