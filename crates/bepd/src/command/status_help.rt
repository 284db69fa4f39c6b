//! The help of `bepd status`.

pub(super) const STATUS_ABOUT: &str = "Show how a running node, its folders and its peers are";

pub(super) const STATUS_CONFIG: &str = "The configuration of the node";

pub(super) const STATUS_JSON: &str = "Print one JSON document";

pub(super) const STATUS_WATCH: &str = "Print it again each second, in place";

pub(super) const STATUS_LONG_ABOUT: &str = "\
Show how a running node, its folders and its peers are.

Each folder is shown with its state, how far a scan or a pull is, how many files and
directories it has, the names that failed or are left out, and the last conflict
copies of this run; each peer with since when it is connected, or why it isn't. With
--json all of it is one JSON document; with --watch it is printed again each second,
until it fails. Where the configuration has the key status, the path of a file, the node
also keeps it there as a page, which a browser shows.

The node is asked by a socket beside its state, which only the user whom the node runs
as may use. Its command status, of which `bepd help run` speaks, gives the same.";

pub(super) const STATUS_STATUSES: &str = "\
Exit status; from 1 on a line on standard error says why:
  0  all was shown
  1  the command line or the configuration was refused
  4  `fault 33 OutOfMemory`: memory ran out
  5  `fault read or write`: the configuration, or the socket, could not be read, or what
     is shown could not be written
  8  `fault no answer`: no node runs by this configuration, or nothing came of the
     answer for 10 seconds, or the node ended before its answer was whole
  9  `fault not done`: the answer is an error

Example: bepd status --config laptop.toml --watch";
