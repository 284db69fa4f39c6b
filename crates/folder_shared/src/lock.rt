//! Taking the lock, and giving it back.
ghost use Rattle.std.specs.Prelude.{◌≡◌, [], ◌∷◌};
ghost use Rattle.crossbeam_channel.specs.Claims.{view, IsSeatAt};
ghost use Rattle.crossbeam_channel.specs.Ends.{sends_on, receives_on, ruled_capacity};
ghost use Rattle.crossbeam_channel.specs.Fifo.{Pushes, Learns};
ghost use Rattle.folder_shared.specs.declared.known.TokenState.TheVariants.{Idle, Holding};
ghost use Rattle.folder_shared.specs.Rule.{RuleHolds, Taken, PutBack, MayPut};

use crate::known::Known;
use crate::rule::{OneHistory, Takes};
use crate::shared::Token;
use crossbeam_channel::protocol::{Lesson, Outcome};
use crossbeam_channel::{RuledReceiver, RuledSender};
use folder_calls::RecordedFolder;
use folder_core::FolderCore;
use std::sync::Wait;

pub(crate) fn take<C: FolderCore + Drop, R: Wait>(
    rt: &R,
    receiver: &RuledReceiver<RecordedFolder<C>, Known, OneHistory>,
    token: &mut Token<C>,
) -> RecordedFolder<C>
    requires seat { IsSeatAt (receives_on receiver.now) token.old }
    requires idle { (view token.old).state ≡ Idle }
    ensures seat { IsSeatAt (receives_on receiver.now) token.new }
    ensures taken { Taken (view token.old) result (view token.new) }
{
    for _ in rt.forever() {
        if let Ok(recorded) = receiver.recv_as::<Takes, R>(rt, token) {
            return recorded;
        }
    }
    unreachable!()
}

pub(crate) fn put<
    C: FolderCore + Drop,
    M: Outcome<RecordedFolder<C>, Known> + Lesson<RecordedFolder<C>, Known>,
    R: Wait,
>(
    rt: &R,
    sender: &RuledSender<RecordedFolder<C>, Known, OneHistory>,
    token: &mut Token<C>,
    mut recorded: RecordedFolder<C>,
)
    requires seat { IsSeatAt (sends_on sender.now) token.old }
    requires rule { Pushes RuleHolds (ruled_capacity (sends_on sender.now)) token.old.id
        (view token.old) recorded (M.then (view token.old) recorded)
        × Learns RuleHolds token.old.id (view token.old) (M.fact (view token.old)) }
    ensures seat { IsSeatAt (sends_on sender.now) token.new }
    ensures rule { M.then (view token.old) recorded (view token.new) }
{
    for _ in rt.forever() {
        match sender.send_as::<M, R>(rt, token, recorded) {
            Ok(()) => return,
            Err(e) => recorded = e.into_inner(),
        }
    }
    unreachable!()
}
