//! Laws: functions without parameters that do nothing, of which the contract states what the definitions of sessions imply.
ghost use Rattle.std.specs.Prelude.{◌≡◌, ℕ, ℤ, List, [], ◌++◌, Some, IsSome, Err, Bool, false, not, ◌||◌, ◌&&◌};
ghost use Rattle.std.specs.List.{IsDistinct};
ghost use Rattle.std.specs.Ordering.{eq_by_cmp, int_cmp};
ghost use Rattle.bep_frames.specs.declared.fault.FrameFault.{FrameFault};
ghost use Rattle.bep_frames.specs.declared.frame.Frame.{Frame};
ghost use Rattle.bep_frames.specs.declared.frame.Frame.TheVariants.{Message as MessageFrame};
ghost use Rattle.bep_frames.specs.declared.frame.Message.{Message};
ghost use Rattle.bep_frames.specs.Faults.{frame_fault_name, frame_fault_number};
ghost use Rattle.bep_frames.specs.Stream.{stream};
ghost use Rattle.bep_session.specs.declared.event.Event.TheVariants.{Ended};
ghost use Rattle.bep_session.specs.declared.fault.SessionFault.{SessionFault};
ghost use Rattle.bep_session.specs.declared.fault.SessionFault.TheVariants.{NotClusterConfigFirst};
ghost use Rattle.bep_session.specs.declared.conversation.Stage.TheVariants.{Opening, Over};
ghost use Rattle.bep_session.specs.declared.conversation.Conversation.{Conversation};
ghost use Rattle.bep_session.specs.Events.{may_begin, after_frame};
ghost use Rattle.bep_session.specs.Faults.{session_fault, session_fault_name, session_fault_number};
ghost use Rattle.bep_session.specs.Ids.{closed, is_open, opened};
ghost use Rattle.bep_session.specs.Runs.{Act, run, events_of_run};
ghost use Rattle.bep_session.specs.Sessions.{View, begun, fed};

/// The events of all that happens on a connection are those of the whole stream's messages and of the ids that were opened,
/// however the stream comes: at each piece, those of the messages that it makes whole.
pub fn a_session_gives_its_stream()
    ensures { (moment : ℕ) (acts : List Act) →
        (run (begun moment) acts).events ≡ events_of_run [] (begun moment).conversation acts }
{}

/// A piece that is cut in two, with nothing between, gives the same events and leaves the same session.
pub fn a_piece_may_be_cut()
    ensures events { (v : View) (a b : List ℕ) (moment : ℕ) →
        (fed v (a ++ b) moment).events ≡ (fed v a moment).events ++ (fed (fed v a moment).session b moment).events }
    ensures session { (v : View) (a b : List ℕ) (moment : ℕ) →
        (fed v (a ++ b) moment).session ≡ (fed (fed v a moment).session b moment).session }
{}

/// After the end, bytes give nothing and change nothing.
pub fn nothing_after_the_end()
    ensures { (v : View) (piece : List ℕ) (moment : ℕ) →
        v.conversation.stage ≡ Over → fed v piece moment ≡ record { session = v; events = [] } }
{}

/// `NotClusterConfigFirst` is the event of exactly the messages of a known type that come while the ClusterConfig is due, and are
/// neither one nor a Close.
pub fn a_cluster_config_comes_first()
    ensures is { (moment : ℕ) (t : Conversation) (m : Message) → t.stage ≡ Opening → may_begin m ≡ false →
        (after_frame moment t (MessageFrame m)).event ≡ Some (Ended NotClusterConfigFirst) }
    ensures only { (moment : ℕ) (t : Conversation) (f : Frame) → (after_frame moment t f).event ≡ Some (Ended NotClusterConfigFirst) →
        (t.stage ≡ Opening) × ((m : Message) × (f ≡ MessageFrame m) × (may_begin m ≡ false)) }
{}

/// Each fault that a stream shows ends its session, under the same number and name; no stream shows that memory is out.
pub fn a_stream_that_shows_a_fault()
    ensures ends { (due : Bool) (bytes : List ℕ) (e : FrameFault) → (stream due bytes).end ≡ Err e → IsSome (session_fault e) }
    ensures number { (e : FrameFault) (fault : SessionFault) → session_fault e ≡ Some fault →
        session_fault_number fault ≡ frame_fault_number e }
    ensures name { (e : FrameFault) (fault : SessionFault) → session_fault e ≡ Some fault →
        session_fault_name fault ≡ frame_fault_name e }
{}

/// The ids that are open after one more was opened are that one and those before; after one was freed, those before without it.
pub fn ids_that_are_open()
    ensures opened { (ids : List ℤ) (id q : ℤ) → is_open (opened ids id) q ≡ (eq_by_cmp int_cmp q id || is_open ids q) }
    ensures closed { (ids : List ℤ) (id q : ℤ) → IsDistinct (eq_by_cmp int_cmp) ids →
        is_open (closed ids id) q ≡ (not (eq_by_cmp int_cmp q id) && is_open ids q) }
{}
