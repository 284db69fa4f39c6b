//! How often a folder is looked at.
ghost use Rattle.std.specs.Prelude.{◌≡◌, ◌*◌, Option, Some, None};
ghost use Rattle.folder_look.specs.Rhythms.{looking_of, pause, pause_of_all, pause_of_directories};

/// The least milliseconds between two looks, where they go by what they cost.
const LEAST_PAUSE: u64 = 1_000;

/// For how many names a look at all entries waits a millisecond: one costs some two microseconds, so that looking takes a hundredth of one processor.
const NAMES_A_MILLISECOND: u64 = 5;

/// How many times as long as a look took, of a slow disk, the next one waits at least.
const REST: u64 = 20;

/// How often a folder is looked at.
#[derive(Clone, Copy, Debug, PartialEq, Eq)]
pub enum Looking {
    /// As often as costs little.
    Auto,
    /// Each so many seconds, at least 1.
    Each(u32),
    /// Never.
    Off,
}

impl Looking {
    /// By a number of seconds: none where it is 0, and as often as costs little where it is less. O(1).
    pub fn of_number(number: i32) -> Looking
        ensures { result ≡ looking_of number }
    {
        if number < 0 {
            Looking::Auto
        } else if number == 0 {
            Looking::Off
        } else {
            Looking::Each(number.unsigned_abs())
        }
    }

    /// How many milliseconds after a look at all entries the next one is, where there are so many names and that look took so many: a second at
    /// least, a millisecond for each 5 names, and twenty times as long as it took. O(1).
    pub fn pause_of_all(self, names: u64, took: u32) -> Option<u64>
        ensures { result ≡ pause_of_all self names took }
    {
        self.pause(names / NAMES_A_MILLISECOND, took)
    }

    /// The same of a look at directories alone: a second at least, a millisecond for each directory, and twenty times as long as it took. O(1).
    pub fn pause_of_directories(self, directories: u64, took: u32) -> Option<u64>
        ensures { result ≡ pause_of_directories self directories took }
    {
        self.pause(directories, took)
    }

    fn pause(self, cost: u64, took: u32) -> Option<u64>
        ensures { result ≡ pause self cost took }
    {
        match self {
            Looking::Auto => Some(LEAST_PAUSE.max(cost).max(u64::from(took) * REST)),
            Looking::Each(seconds) => Some(u64::from(seconds) * 1_000),
            Looking::Off => None,
        }
    }
}
