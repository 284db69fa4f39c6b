//! How a pull is ended.
ghost use Rattle.std.specs.Prelude.{◌≡◌};
ghost use Rattle.folder_core.specs.declared.change.Change.TheVariants.{Abort, GiveUp};
ghost use Rattle.sync_pull.specs.Ends.{Closes, Finishes, IsRefused, stopped};

use crate::answer::Stop;
use crate::{PullAnswer, PullRefusal};
use file_store::{Gate, GatePlace};
use folder_calls::{EnterRefusal, FolderCalls, PullCommit, PullTicket};
use sync_record::Assembled;

// The answer of a pull that stops so.
pub(crate) fn answer_of(stop: Stop) -> PullAnswer
    ensures { result ≡ stopped stop }
{
    match stop {
        Stop::OutOfMemory => PullAnswer::Refused(PullRefusal::OutOfMemory),
        Stop::Failed(failure) => PullAnswer::Failed(failure),
    }
}

// Gives up a pull whose commit was not entered. Returns the given answer, or `Stray` if the ticket is.
pub(crate) fn give_up<W: FolderCalls, G: Gate>(
    calls: &mut W,
    gate: &G,
    ticket: PullTicket,
    answer: PullAnswer,
) -> PullAnswer
    ensures folder { W.folder calls.new ≡ W.folder calls.old }
    ensures closes { Closes (W.view calls.old) (GiveUp ticket) answer result (W.view calls.new) }
{
    gate.at(GatePlace::FolderCall);
    if calls.give_up(ticket).value {
        answer
    } else {
        PullAnswer::Refused(PullRefusal::Stray)
    }
}

// Aborts a pull whose commit was entered. Returns the given answer, or `Stray` if the commit is.
pub(crate) fn abort<W: FolderCalls, G: Gate>(
    calls: &mut W,
    gate: &G,
    commit: PullCommit,
    answer: PullAnswer,
) -> PullAnswer
    ensures folder { W.folder calls.new ≡ W.folder calls.old }
    ensures closes { Closes (W.view calls.old) (Abort commit) answer result (W.view calls.new) }
{
    gate.at(GatePlace::FolderCall);
    if calls.abort(commit).value {
        answer
    } else {
        PullAnswer::Refused(PullRefusal::Stray)
    }
}

// Finishes a pull whose target is in place. Returns `Done`, or `Stray` if the commit is.
pub(crate) fn finish<W: FolderCalls, G: Gate>(
    calls: &mut W,
    gate: &G,
    commit: PullCommit,
    assembled: Assembled,
) -> PullAnswer
    requires { assembled ≡ commit.target }
    ensures folder { W.folder calls.new ≡ W.folder calls.old }
    ensures finishes { Finishes (W.view calls.old) commit result (W.view calls.new) }
{
    gate.at(GatePlace::FolderCall);
    match calls.finish(commit, assembled).value {
        Ok(sequence) => PullAnswer::Done(sequence),
        Err(_) => PullAnswer::Refused(PullRefusal::Stray),
    }
}

// Gives up a pull whose commit was refused. Returns what the refusal says, or `Stray` if the ticket is.
pub(crate) fn refused<W: FolderCalls, G: Gate>(
    calls: &mut W,
    gate: &G,
    refusal: EnterRefusal,
) -> PullAnswer
    ensures folder { W.folder calls.new ≡ W.folder calls.old }
    ensures refused { IsRefused (W.view calls.old) refusal result (W.view calls.new) }
{
    match refusal {
        EnterRefusal::Stray => PullAnswer::Refused(PullRefusal::Stray),
        EnterRefusal::LocalMoved(ticket) => give_up(calls, gate, ticket, PullAnswer::LocalMoved),
        EnterRefusal::Superseded(ticket) => give_up(calls, gate, ticket, PullAnswer::Superseded),
        EnterRefusal::SequenceFull(ticket) => {
            give_up(
                calls,
                gate,
                ticket,
                PullAnswer::Refused(PullRefusal::SequenceFull),
            )
        }
        EnterRefusal::HistoryFull(ticket) => {
            give_up(
                calls,
                gate,
                ticket,
                PullAnswer::Refused(PullRefusal::HistoryFull),
            )
        }
    }
}
