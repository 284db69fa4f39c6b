//! The help of `bepd best`.

pub(super) const BEST_ABOUT: &str =
    "List the best version of each name of a folder, from what one peer sent";

pub(super) const BEST_LONG_ABOUT: &str = "\
List the best version of each name of a folder, from what one peer sent.

The best is a valid version that no other valid version of the name dominates; of
several such, a live one before a deleted one, then the one modified last, and
then the one modified by the device with the smaller ID. Syncthing calls it the
global version.

Input: on standard input the bytes that one peer sent on one connection of the
Block Exchange Protocol v1, after its Hello: frames of a header and a message.
They are the plain bytes within TLS, as a proxy records them that has the
certificates of both devices. Compression must be set to `never` on the device
that sends. Index and IndexUpdate messages of FOLDER count; all others are read
and passed over.

Output: for each name of which the peer announced a valid version a line

    best KIND SIZE VERSION NAME

in byte order of the names, and as the last line `skipped N`. There
    KIND     is file, dir, other, or gone for a name that was deleted,
    SIZE     is in bytes,
    VERSION  is ID:COUNTER for each device that changed it, with commas between,
             or - for none; ID has the first 8 bytes of the device's identity in
             hexadecimal, which Syncthing's short id has in base32,
    NAME     has control characters and the backslash as \\xHH,
    N        is how many records were left out, since their names must not reach
             a disk.";

pub(super) const BEST_FOLDER: &str = "The id of the folder, as the peer's messages have it";

pub(super) const BEST_STATUSES: &str = "\
Exit status; from 2 on a line on standard error says why:
  0  the input was read to its end
  1  the command line was refused
  2  `fault NUMBER NAME`: the stream breaks the protocol; what came before is listed
  3  `rest N`: the input ends within a frame, of which it has N bytes
  4  `fault 33 OutOfMemory`: memory ran out
  5  `fault read or write`: that failed, or the input has more than 2^40 bytes";
