//! The help of `bepd run`.
use node_config::{FolderNumber, NumberRange, NumberRule};
use std::alloc::{AllocError, Global};

pub(super) const RUN_ABOUT: &str = "Keep folders alike with peers over TCP";

pub(super) const RUN_CONFIG: &str = "The configuration, a TOML document";

pub(super) const RUN_CHECK: &str = "Say what the configuration asks for, and end";

pub(super) const RUN_QUIET: &str = "Tell nothing on standard error of what happens";

pub(super) const RUN_NO_INPUT: &str =
    "Read no commands from standard input: they come by `bepd ask`";

pub(super) const RUN_VERBOSE: &str = "Write a line for each name that is pulled or recorded";

/// What the help says first, with the numbers of a folder by their table. Fails only if out of memory.
pub(crate) fn run_about(alloc: Global) -> Result<String, AllocError> {
    let mut text = String::from_str(alloc, CONFIGURATION)?;
    for number in FolderNumber::ALL {
        let NumberRule {
            key,
            range,
            sentence,
        } = number.rule();
        let NumberRange { low, high, default } = range;
        let lines = match number.word_for(default) {
            Some(word) => format!(in alloc;
                "    {key} = \"{word}\"\n        {sentence} {low} to {high}.\n"
            )?,
            None => format!(in alloc;
                "    {key} = {default}\n        {sentence} {low} to {high}.\n"
            )?,
        };
        text.push_str(lines.as_str())?;
    }
    text.push_str(REST)?;
    Ok(text)
}

const CONFIGURATION: &str = "\
Keep folders alike with peers over TCP.

Each folder of the configuration is scanned when it begins, each day (rescan; 0 is
never), and by command; between these, changes are found within seconds (look). What a
peer announces is pulled as soon as it is needed. The Block Exchange Protocol v1 is
spoken without TLS: use it where the line is safe, as in a tunnel. What a folder's files
were found to be is kept in the state file. A folder has a marker, .stfolder: while it
is missing, as where a disk is not mounted, nothing is recorded as deleted.

Configuration, by example:

    device = \"0000000000000000000000000000000000000000000000000000000000000001\"
    name = \"laptop\"
    state = \"/home/me/bepd.state\"

    [[folder]]
    id = \"docs\"
    path = \"/home/me/docs\"

    [[peer]]
    device = \"0000000000000002000000000000000000000000000000000000000000000000\"
    folders = [\"docs\"]
    dial = \"192.0.2.1:22000\"

A device's identity has 64 hexadecimal digits, of which the first 16 must differ
between devices; it may be written as Syncthing shows it, too. In place of dial, listen
has the address of this device at which the peer makes the connection. localhost:22000
is an address too, and unix:/home/me/bepd.socket a Unix socket at that path. With
status = \"/home/me/bepd.html\" beside state, the node keeps that file as a page that
says how all is.

A folder may have more; where it has not, it is as if it had

";

const REST: &str = "\
    mode = \"640\"
        The permissions of its new files, three octal digits. Where it is left out,
        the system's.

Input: on standard input a command a line, with one space between words, or by
`bepd ask`. F is the id of a folder.

    scan F      the folder is scanned
    need F      its names of which a better version is announced
    skipped F   the names that scans of it left out, and why
    best F      the best version of each name, where it is needed or recorded here
    local F     the records of this device
    conflicts F its conflict copies that are there
    folders     each folder: whether it is here, how much is recorded of it, and how
                many names it needs
    peers       which peers are connected
    status      how all is, for a person; status json: the same as one JSON document;
                status page: as a page for a browser
    history F   how many changes were made since the start, and how many pulls are
                under way
    verify F    whether these changes lead to what the folder is now
    quit        the program ends, as it does at the end of the input (with --no-input it
                goes on until it is asked to quit, or killed, which undoes nothing)

Output: need, skipped, best, local, conflicts, folders and peers print a line for each,
and then `end`; status some lines, the others one, and quit none:

    scan F recorded R unchanged U other O
    need NAME
    skipped NAME: WHY
    best KIND SIZE VERSION NAME
    local KIND SIZE VERSION NAME
    conflict NAME
    folder here files N directories N need N F, or in place of here: away, held, in-use
    peer ID up, or peer ID down
    history F changes N open P
    verify F yes, or verify F no
    error NUMBER NAME, as error 46 FolderMissing, error unknown folder or
    error unknown command

Standard error has a line for each thing that happens, unless --quiet is given: the
time in UTC, and

    connected ID, gone ID: WHY
    not taken for ID: WHY              who is there has this device's own identity
    recorded F NAME                    a change was recorded; of many, ten are named
    scanned F recorded R unchanged U other O
    skipped F NAME: WHY                a scan left it out, and did not before
    got F NAME, replaced F NAME,       the best version is in place: it is new, or goes
    deleted F NAME, same F NAME        before another one, or nothing, or was there
    pulled F, besides: got N, ..       how many more; of many, ten are named
    conflict copy F NAME               what was there before is kept under this name
    failed F NAME: NUMBER WHY          it could not be pulled, and is tried again; told
                                       again where it is for another reason
    no room F: WHY                     the disk is full; it is tried again each minute
    away F: WHY, back F                the folder lacks its marker; all is well again
    held F: WHY                        none of its names is there: it waits for them,
                                       or for scan F
    history full F: WHY                the node ends, and begins anew
    older state: WHY                   a peer was told more than the state has: the node
                                       ends, begins anew, and tells everything again
    state not written: WHY             nothing is put in place, and peers are told
                                       nothing, until it can be

and each ten seconds, or on a terminal each second in place, how far a long scan or
pull is.

`bepd help best` says what KIND, SIZE, VERSION and NAME are.";

pub(super) const RUN_STATUSES: &str = "\
Exit status; from 1 on a line on standard error says why:
  0  the program was told to quit, or the input ended
  1  the command line was refused, or `fault 60 BadConfig`, and a second line says
     which key, or which line of the file, is wrong
  4  `fault 33 OutOfMemory`: memory ran out
  5  `fault 40 StoreFault`: the path of a folder is no directory, or leads to another
     one than before; or `fault read or write`: a file, or the commands, or an answer
     could not be read or written
  6  `fault 61 BadState`: the state file is not one; `fault 63 StateInUse`: another run
     has it; `fault 64 FolderInUse`: another run has a folder, whose path is on a second
     line
  7  `fault 62 BadAddress`: an address can't be read, or not be listened on";
