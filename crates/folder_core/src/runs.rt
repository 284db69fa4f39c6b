//! Changes as values, made on any folder.
ghost use Rattle.std.specs.Prelude.{◌≡◌, [], All, IfErr, IfOk, IsOk, IsTrue};
ghost use Rattle.folder_core.specs.Calls.{Changes, begin_answer, close_answer, enter_answer, finish_answer, index_answer, scan_answer};
ghost use Rattle.folder_core.specs.Runs.{IsPartway, ends_pull, made_answer, run};
ghost use Rattle.folder_core.specs.Steps.{MayChange};

use crate::{
    Answer, BeginAnswer, Change, Commit, EnterFault, FolderCore, ScanAnswer, ScanFault, Stray,
    Ticket,
};
use bep_messages::Items;
use std::alloc::{AllocError, Global};

/// Makes a change on a folder, and returns its answer. What the change says of a pull stands for the ticket or the commit that it was
/// made from; one that is for no open pull is stray. Returns `Err` only if out of memory, and then nothing changed; never
/// for the end of a pull.
pub fn make<C: FolderCore>(core: &mut C, change: Change) -> Result<Answer, AllocError>
    requires { MayChange (C.state core.old).me change }
    ensures made { Changes (C.state core.old) change (made_answer result) (C.state core.new) }
    ensures ends { IsTrue (ends_pull change) → IsOk result }
{
    match change {
        Change::ScanFound {
            name,
            expected,
            found,
            moment,
        } => scan_answer(core.scan_found(&name, expected.as_ref(), &found, moment)),
        Change::ScanGone {
            name,
            expected,
            moment,
        } => scan_answer(core.scan_gone(&name, expected.as_ref(), moment)),
        Change::IndexFull { device, records } => applied(core.index_full(device, records)),
        Change::IndexMore { device, records } => applied(core.index_more(device, records)),
        Change::Forget { device } => applied(core.forget(device)),
        Change::BeginPull { name } => begin_answer(core.begin_pull(&name)),
        Change::EnterCommit { ticket } => {
            enter_answer(core.enter_commit(Ticket { info: ticket }))
        }
        Change::Finish { commit, assembled } => {
            Ok(finish_answer(core.finish(Commit { info: commit }, &assembled)))
        }
        Change::GiveUp { ticket } => Ok(close_answer(core.give_up(Ticket { info: ticket }))),
        Change::Abort { commit } => Ok(close_answer(core.abort(Commit { info: commit }))),
    }
}

/// Memory ran out before all changes were made.
#[derive(Debug, PartialEq, Eq, Drop)]
pub struct Partway {
    /// The answers of the changes that were made, which are the first ones.
    pub answers: Items<Answer>,
}

/// Makes changes on a folder, one after the other, and returns their answers. Returns `Err` only if out of memory, with the
/// answers of the changes that were made until then. It does not allocate if there are none.
pub fn make_all<C: FolderCore>(
    alloc: Global,
    core: &mut C,
    changes: Items<Change>,
) -> Result<Items<Answer>, Partway>
    requires { All (MayChange (C.state core.old).me) changes }
    ensures ok { IfOk result (λ answers. (answers, C.state core.new)
        ≡ run (C.state core.old) changes) }
    ensures err { IfErr result (λ partway.
        IsPartway (C.state core.old) changes partway.answers (C.state core.new)) }
    ensures nothing { changes ≡ [] → IsOk result }
{
    let mut answers = Vec::new(alloc);
    for change in changes.into_vec() {
        if answers.reserve(1).is_err() {
            return Err(stopped(answers));
        }
        match make(core, change) {
            Ok(answer) => answers.push_reserved(answer),
            Err(_) => return Err(stopped(answers)),
        }
    }
    Ok(Items::from_vec(answers))
}

fn stopped(answers: Vec<Answer>) -> Partway
    ensures { result.answers ≡ answers.items }
{
    Partway {
        answers: Items::from_vec(answers),
    }
}

fn scan_answer(answer: Result<ScanAnswer, ScanFault>) -> Result<Answer, AllocError>
    ensures { made_answer result ≡ scan_answer answer }
{
    match answer {
        Ok(ScanAnswer::Recorded(sequence)) => Ok(Answer::Recorded(sequence)),
        Ok(ScanAnswer::Unchanged) => Ok(Answer::Unchanged),
        Ok(ScanAnswer::Moved(version)) => Ok(Answer::Moved(version)),
        Ok(ScanAnswer::Busy) => Ok(Answer::Busy),
        Err(ScanFault::CounterFull) => Ok(Answer::CounterFull),
        Err(ScanFault::SequenceFull) => Ok(Answer::SequenceFull),
        Err(ScanFault::OutOfMemory) => Err(AllocError),
    }
}

fn applied(answer: Result<(), AllocError>) -> Result<Answer, AllocError>
    ensures { made_answer result ≡ index_answer answer }
{
    answer?;
    Ok(Answer::Applied)
}

fn begin_answer(answer: Result<BeginAnswer, AllocError>) -> Result<Answer, AllocError>
    ensures { made_answer result ≡ begin_answer answer }
{
    Ok(match answer? {
        BeginAnswer::Begun(Ticket { info }) => Answer::Begun(info),
        BeginAnswer::NotNeeded => Answer::NotNeeded,
        BeginAnswer::Busy => Answer::Busy,
        BeginAnswer::Unsupported => Answer::Unsupported,
    })
}

fn enter_answer(answer: Result<Commit, EnterFault>) -> Result<Answer, AllocError>
    ensures { made_answer result ≡ enter_answer answer }
{
    match answer {
        Ok(Commit { info }) => Ok(Answer::Entered(info)),
        Err(EnterFault::Stray) => Ok(Answer::Stray),
        Err(EnterFault::LocalMoved(ticket)) => Ok(spent(ticket, Answer::LocalMoved)),
        Err(EnterFault::Superseded(ticket)) => Ok(spent(ticket, Answer::Superseded)),
        Err(EnterFault::SequenceFull(ticket)) => Ok(spent(ticket, Answer::SequenceFull)),
        Err(EnterFault::OutOfMemory(Ticket { info: _ })) => Err(AllocError),
    }
}

/// The answer; the ticket is used up.
fn spent(ticket: Ticket, answer: Answer) -> Answer
    ensures { result ≡ answer }
{
    let Ticket { info: _ } = ticket;
    answer
}

fn finish_answer(answer: Result<u64, Stray>) -> Answer
    ensures { result ≡ finish_answer answer }
{
    match answer {
        Ok(sequence) => Answer::Done(sequence),
        Err(Stray) => Answer::Stray,
    }
}

fn close_answer(is_closed: bool) -> Answer
    ensures { result ≡ close_answer is_closed }
{
    if is_closed {
        Answer::Closed
    } else {
        Answer::Stray
    }
}
