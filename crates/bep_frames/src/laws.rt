//! Laws: functions without parameters that do nothing, of which the contract states what the definitions of frames and streams imply.
ghost use Rattle.std.specs.Prelude.{◌≡◌, ◌≢◌, ◌++◌, ◌+◌, ◌<◌, ℕ, ℤ, Bool, true, false, [], List, None, Some, Ok, Err, Result, length};
ghost use Rattle.bep_messages.specs.declared.index.Index.{Index};
ghost use Rattle.bep_messages.specs.declared.index_update.IndexUpdate.{IndexUpdate};
ghost use Rattle.bep_messages.specs.Memory.{TakesMemory};
ghost use Rattle.bep_messages.specs.Tables.{Table};
ghost use Rattle.bep_frames.specs.declared.fault.FrameFault.{FrameFault};
ghost use Rattle.bep_frames.specs.declared.fault.FrameFault.TheVariants.{BadBody, OutOfMemory};
ghost use Rattle.bep_frames.specs.declared.frame.Frame.{Frame};
ghost use Rattle.bep_frames.specs.declared.frame.Frame.TheVariants.{Message as MessageFrame, Unknown};
ghost use Rattle.bep_frames.specs.declared.frame.Message.TheVariants.{Index as IndexMessage, IndexUpdate as IndexUpdateMessage};
ghost use Rattle.bep_frames.specs.Grammar.{Begins, IsFrame, IsPartial, Shows, max_hello_bytes, max_message_bytes};
ghost use Rattle.bep_frames.specs.Memory.{FrameTakesMemory};
ghost use Rattle.bep_frames.specs.State.{Gives, State, fed, remaining, start};
ghost use Rattle.bep_frames.specs.Stream.{Splits, ended, first_then, stream};

use crate::size::{MAX_HELLO_BYTES, MAX_MESSAGE_BYTES};

/// Each byte list has exactly one reading as a stream: its frames, and the rest or the fault that it shows.
pub fn one_reading()
    ensures read { (due : Bool) (bytes : List ℕ) →
        Splits due bytes (stream due bytes).frames (stream due bytes).end }
    ensures only { (due : Bool) (bytes : List ℕ) (frames : List Frame) (end : Result (List ℕ) FrameFault) →
        Splits due bytes frames end → (frames ≡ (stream due bytes).frames) × (end ≡ (stream due bytes).end) }
{}

/// No spelling of a Hello is a proper beginning of another Hello's, and none of a later frame of another
/// later frame's.
pub fn no_frame_begins_another()
    ensures hello { (bytes rest : List ℕ) (f g : Frame) →
        IsFrame true bytes f → IsFrame true (bytes ++ rest) g → rest ≡ [] }
    ensures later { (bytes rest : List ℕ) (f g : Frame) →
        IsFrame false bytes f → IsFrame false (bytes ++ rest) g → rest ≡ [] }
{}

/// What a reader gives and what it has yet to give are one stream, however its bytes come.
pub fn a_reader_gives_its_stream()
    ensures pieces { (s : State) (a b : List ℕ) → fed (fed s a) b ≡ fed s (a ++ b) }
    ensures starts { (due : Bool) (bytes : List ℕ) → remaining (fed (start due) bytes) ≡ stream due bytes }
    ensures frame { (old new : State) (f : Frame) (more : List ℕ) →
        Gives old (Some (Ok f)) new → remaining (fed old more) ≡ first_then f (remaining (fed new more)) }
    ensures fault { (old new : State) (e : FrameFault) (more : List ℕ) →
        Gives old (Some (Err e)) new → e ≢ OutOfMemory →
        (remaining (fed new more) ≡ remaining (fed old more)) × (remaining (fed new more) ≡ ended (Err e)) }
    ensures none { (s new : State) → Gives s None new → remaining (fed s []) ≡ ended (Ok s.rest) }
{}

/// A message has fewer records than its frame has bytes.
pub fn records_are_fewer_than_bytes()
    ensures index { (bytes rest : List ℕ) (m : Index) →
        Begins false bytes (MessageFrame (IndexMessage m)) rest → length m.files + length rest < length bytes }
    ensures update { (bytes rest : List ℕ) (m : IndexUpdate) →
        Begins false bytes (MessageFrame (IndexUpdateMessage m)) rest → length m.files + length rest < length bytes }
    ensures frame_shorter { (due : Bool) (bytes rest : List ℕ) (f : Frame) →
        Begins due bytes f rest → length rest < length bytes }
{}

/// Where `next` may return `OutOfMemory`, a whole frame is first that isn't of an unknown type, or a whole body
/// that can't be read. So it never does where a byte is missing or any other fault shows, nor for an empty body.
pub fn which_frames_take_memory()
    ensures whole { (due : Bool) (bytes : List ℕ) → FrameTakesMemory due bytes → ¬ IsPartial due bytes }
    ensures faults { (due : Bool) (bytes : List ℕ) (e : FrameFault) →
        FrameTakesMemory due bytes → Shows due bytes e → e ≡ BadBody }
    ensures unknown { (due : Bool) (bytes rest : List ℕ) (kind : ℤ) →
        FrameTakesMemory due bytes → ¬ Begins due bytes (Unknown kind) rest }
    ensures empty { (table : Table) → ¬ TakesMemory table [] }
{}

/// The limits of the code are those of the grammar.
pub fn limits()
    ensures hello { MAX_HELLO_BYTES ≡ max_hello_bytes }
    ensures message { MAX_MESSAGE_BYTES ≡ max_message_bytes }
{}
