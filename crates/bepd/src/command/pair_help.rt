//! The help of `bepd pair`.

pub(super) const PAIR_ABOUT: &str = "Play two peers in memory that sync a folder, by commands";

pub(super) const PAIR_LONG_ABOUT: &str = "\
Play two peers in memory that sync a folder, by commands.

The peers are A and B. Each has files of its own in memory, none at first, and what
it knows of the folder; nothing is read from or written to a disk. Indexes and
blocks go from one to the other as frames of the Block Exchange Protocol v1.

Input: on standard input a command a line, with one space between words. P is A or
B. In a NAME `/` separates directories.

    put P NAME TEXT   P's file NAME holds TEXT, the rest of the line, in place of
                      what it held; missing directories are made
    mkdir P NAME      P's directory NAME is made, and missing ones above it
    del P NAME        P's file or empty directory NAME is removed
    scan P            P looks at its files, and records what has changed
    sync              A announces its new records to B, and then B its own to A
    pull P            P gets each name of which a better version is announced
    show P            P's records are listed
    time N            it is N seconds after 1970-01-01 00:00:00; N is 0 at first
    conflicts P N     P keeps at most N conflict copies of a name, 0 to 1000; -1, as
                      at first, keeps them all

Output: put, mkdir, del, time and conflicts print nothing. The others print

    scan P recorded R unchanged U other O
        how many names were recorded, deleted ones too; were as recorded; or were
        neither, as one that is not to be synced
    sync A>B N B>A M
        how many records went to B, and to A
    pull P ANSWER NAME
        for each name that P needs: first those that are there, in byte order, then
        those that were deleted, in the reverse order
    local P KIND SIZE VERSION NAME
        for each record, in byte order of the names

There ANSWER is
    done SEQ      NAME is in place, and P's record number SEQ says so
    notneeded     P has the best version
    busy          another pull of NAME is open
    unsupported   it is neither a file nor a directory
    moved         P's record of NAME changed meanwhile
    superseded    a better version was announced meanwhile
    refused NN    31 no record number is left; 32 the history is full; 33 out of
                  memory; 34 the pull was ended by another
    failed NN     41 no block came; 42 NAME is not what P scanned last; 43 the name
                  of the conflict copy is taken; 44 the directory has entries; 45 a
                  parent of NAME is a file; 40 the store failed
and KIND is file, dir, other, or gone for a deleted name; SIZE is in bytes; VERSION
is ID:COUNTER for each peer that changed it, A being 0000000000000001 and B
0000000000000002, with commas between, or - for none. In NAME control characters and
the backslash are \\xHH.

What is not done prints a line, and changes nothing:
    error unknown command   it is no command, or it does not fit: put or mkdir over
                            something of another kind or under a file, del of
                            nothing or of a directory with entries; so does a line
                            of more than 65,536 bytes, or that is not UTF-8
    error NN REASON         NAME is refused: 20 Empty, 21 Absolute, 22 BadComponent,
                            23 Nul, 24 NotNfc, 25 Internal; or a scan was stopped";

pub(super) const PAIR_STATUSES: &str = "\
Example: both put a file x, and neither knows of the other's.

    put A x one
    put B x two
    scan A
    scan B
    sync
    pull A
    pull B
    scan B
    show B

prints

    scan A recorded 1 unchanged 0 other 0
    scan B recorded 1 unchanged 0 other 0
    sync A>B 1 B>A 1
    pull B done 2 x
    scan B recorded 1 unchanged 1 other 0
    local B file 3 0000000000000001:1,0000000000000002:1 x
    local B file 3 0000000000000002:1 x.sync-conflict-19700101-000000-AAAAAAA

The version of A wins, so A pulls nothing, and B gets it and keeps its own text as a
conflict copy, which its next scan records. After `sync` and `pull A` A has it too.

Exit status; from 2 on a line on standard error says why:
  0  the input was read to its end
  1  the command line was refused
  4  `fault 33 OutOfMemory`: memory ran out
  5  `fault read or write`: that failed, or the input has more than 2^40 bytes";
