//! `bepd best FOLDER`.
ghost use Rattle.std.specs.Prelude.{◌≡◌, ℕ, List, IfSome, false};
ghost use Rattle.std.specs.Io.KnownBytes.{Appends};
ghost use Rattle.bep_frames.specs.Stream.{stream};
ghost use Rattle.folder_core.specs.States.{empty_folder};
ghost use Rattle.bepd.specs.Counts.{Reads, input_of, output_of};
ghost use Rattle.bepd.specs.Endings.{IsEndOf, IsListed, TellsFailedRead, TellsFailedWrite};
ghost use Rattle.bepd.specs.Received.{own_device};
ghost use Rattle.bepd.specs.Listing.{listing, Answers};

use crate::counted::{CountedReader, CountedWriter};
use crate::ending::Ending;
use crate::input::read_stream;
use crate::listing::write_listing;
use crate::received::Received;
use folder_core::FolderCore;
use std::alloc::Global;
use std::io::{Read, Write};
use std::mem::forget;

/// Reads a peer's stream without Hello up to its end or its first fault, and writes the listing of one folder: a line
/// `best KIND SIZE VERSION NAME` for each name that has a best, in byte order, and then `skipped N`.
///
/// Only the Index and IndexUpdate messages of the folder count; others are read over. At a fault the listing is that of
/// the frames before it, and nothing after the piece that shows it is read. After a failed read nothing is written; when
/// out of memory, or after a failed write, no more lines are. An input of more than 2^40 bytes ends as a failed read does;
/// else the reader's and the writer's counts say whether one failed.
///
/// `empty` is the folder in which no device announces anything. The stream is read in pieces of 64 KiB, and the listing
/// written in pages of 1,000 names. The cost of a message and of a page is the folder's. Memory for the folder, for a
/// small multiple of the greatest message, and for a page.
pub fn best<F: FolderCore + Drop, R: Read, W: Write>(
    alloc: Global,
    folder: &str,
    empty: F,
    reader: &mut CountedReader<R>,
    writer: &mut CountedWriter<W>,
) -> Ending
    requires { F.state empty ≡ empty_folder own_device }
    // Exactly the listing of the bytes that the reader gave is written, unless something failed, and no more are read than
    // up to the piece that shows a fault. A failed read is said just where the reader counted one, or gave too many bytes.
    ensures listing { let old = input_of R.remaining reader.old in let new = input_of R.remaining reader.new in
        (bytes : List ℕ) × Reads bytes old new × TellsFailedRead result bytes old new
        × Answers folder.now bytes result (W.contents writer.old.inner) (W.contents writer.new.inner) }
    // A failed write is said just where the writer counted one.
    ensures writes { TellsFailedWrite result (output_of W.contents writer.old) (output_of W.contents writer.new) }
    // Where the input is known, it is the listing of the whole input, and the ending is the stream's.
    ensures known { IfSome (R.remaining reader.old.inner) (λ input. IsListed result →
        IsEndOf (stream false input).end result
        × Appends (W.contents writer.old.inner) (W.contents writer.new.inner) (listing folder.now input)) }
{
    let mut received = Received::new(empty);
    let ending = match read_stream(alloc, folder, &mut received, reader) {
        Ok(ending) => ending,
        Err(failure) => return Ending::Failed(failure),
    };
    let ending = match write_listing(alloc, &received, writer) {
        Ok(()) => ending,
        Err(failure) => Ending::Failed(failure),
    };
    // The program ends now. To take a folder apart record by record would take longer than to give its memory back as a whole.
    forget(received);
    ending
}
