//! Laws: functions that do nothing, whose contract states what the definitions imply.
ghost use Rattle.std.specs.Prelude.{◌≡◌, ℕ, List};
ghost use Rattle.bep_session.specs.Runs.{Act, run};
ghost use Rattle.bep_session.specs.Sessions.{begun};
ghost use Rattle.peer_reader.specs.declared.counts.ReaderCounts.{ReaderCounts};
ghost use Rattle.peer_reader.specs.Effects.{Heard};
ghost use Rattle.peer_reader.specs.Hears.{AddsEach, AskedOf, AsksEach};
ghost use Rattle.peer_reader.specs.declared.folder.ReaderFolder.{ReaderFolder};
ghost use Rattle.peer_reader.specs.Reading.{after_events, fed_of};
ghost use Rattle.peer_reader.specs.Streams.{stream_effect};
ghost use Rattle.sync_record.specs.Devices.{Identity};

use bep_session::laws::a_piece_may_be_cut;
use folder_calls::FolderCalls;
use folder_calls::laws::changes_are_asked_in_order;

/// What the events of a session come to is what the whole stream comes to that was fed: the same changes in the same order, folders
/// and counts, however the stream was cut, when its pieces came, and whatever was asked or said in between.
pub fn changes_are_those_of_the_stream()
    ensures made { (moment : ℕ) (acts : List Act) (peer : Identity) (fs : List Heard) →
        (after_events peer fs (run (begun moment) acts).events).made ≡ (stream_effect peer fs (fed_of acts)).made }
    ensures folders { (moment : ℕ) (acts : List Act) (peer : Identity) (fs : List Heard) →
        (after_events peer fs (run (begun moment) acts).events).folders
        ≡ (stream_effect peer fs (fed_of acts)).folders }
    ensures count { (moment : ℕ) (acts : List Act) (peer : Identity) (fs : List Heard) (counts : ReaderCounts) →
        (after_events peer fs (run (begun moment) acts).events).count counts
        ≡ (stream_effect peer fs (fed_of acts)).count counts }
{
    a_piece_may_be_cut();
}

/// Where folders are asked for changes, the entries of their callers grow by just those of the accepted ones, in their order: over a
/// shared folder those of the pass that a reader has.
pub fn what_is_asked_is_added<W: FolderCalls>()
    ensures { (k : ℕ) (asked : List AskedOf) (olds news : List (ReaderFolder W)) →
        AsksEach W.view W.folder k asked olds news → AddsEach W.view W.folder k asked olds news }
{
    changes_are_asked_in_order();
}
