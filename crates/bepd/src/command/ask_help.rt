//! The help of `bepd ask`.

pub(super) const ASK_ABOUT: &str = "Have a node that runs do a command";

pub(super) const ASK_CONFIG: &str = "The configuration of the node";

pub(super) const ASK_COMMAND: &str = "The command: scan, need, peers, quit, or another one";

pub(super) const ASK_FOLDER: &str = "The folder that it is about, if it is about one";

pub(super) const ASK_LONG_ABOUT: &str = "\
Have a node that runs do a command, and print its answer.

The commands are those that the node takes on its input: scan FOLDER, need FOLDER,
skipped FOLDER, best FOLDER, local FOLDER, conflicts FOLDER, folders, peers, status,
history FOLDER, verify FOLDER and quit; `bepd help run` says what each does. They go to
the node by a socket beside its state, which only the user whom the node runs as may
use. The answer is printed once it is whole; that to quit comes once the node has
written its state, and is empty.";

pub(super) const ASK_STATUSES: &str = "\
Exit status; from 1 on a line on standard error says why:
  0  the command was done
  1  the command line or the configuration was refused
  4  `fault 33 OutOfMemory`: memory ran out
  5  `fault read or write`: the configuration, or the socket, could not be read
  8  `fault no answer`: no node runs by this configuration, or nothing came of the
     answer for 10 seconds (what was asked for may still be done), or the node ended
     before its answer was whole
  9  `fault not done`: the answer is an error, as error 46 FolderMissing

Example: bepd ask --config laptop.toml scan docs";
