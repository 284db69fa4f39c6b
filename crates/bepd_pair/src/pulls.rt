//! Rounds of pulls.
ghost use Rattle.std.specs.Prelude.{◌≡◌, ◌++◌, OnOk, map};
ghost use Rattle.bepd_pair.specs.Lines.{pull_line};
ghost use Rattle.bepd_pair.specs.Pulls.{PullsOne, PullsRound, PullsUnlessFull};
ghost use Rattle.sync_pull.specs.declared.answer.PullAnswer.{PullAnswer as AnyAnswer};

use crate::context::CommandContext;
use crate::link::Link;
use crate::output::push_pull;
use crate::peer::Peer;
use crate::refused::Refused;
use file_store::OpenGate;
use folder_calls::FolderCalls;
use std::alloc::{AllocError, Global};
use std::thread::Threads;
use sync_names::SafeName;
use sync_pull::{PullAnswer, pull_name};

/// Pulls each needed name once, with blocks over the link, and prints what it came to.
pub(crate) fn pull<R: Threads + Sync>(
    cx: &CommandContext<'_, R>,
    peer: &mut Peer,
    link: &mut Link<'_>,
    lines: &mut Vec<u8>,
) -> Result<(), Refused>
    ensures { PullsUnlessFull cx.now.moment peer.old result lines.old.items lines.new.items peer.new }
{
    let names = round_of(cx.alloc, peer)?;
    Ok(pull_each(cx, peer, link, names.as_slice(), lines)?)
}

/// The names that a round pulls: those with a live best, in byte order, and then those with a deleted one, in the reverse
/// order, so that what is in a directory goes before it.
fn round_of(alloc: Global, peer: &mut Peer) -> Result<Vec<SafeName>, AllocError>
    ensures { peer.new ≡ record peer.old { calls = peer.new.calls } }
{
    let needed = peer.calls.need(None, usize::MAX)?.value;
    let mut live = Vec::new(alloc);
    let mut deleted = Vec::new(alloc);
    for name in needed.as_slice() {
        let is_deleted = match peer.calls.best(name)?.value {
            Some(best) => best.record.is_deleted(),
            None => false,
        };
        let name = name.copy()?;
        if is_deleted {
            deleted.push(name)?;
        } else {
            live.push(name)?;
        }
    }
    while let Some(name) = deleted.pop() {
        live.push(name)?;
    }
    Ok(live)
}

/// Pulls these names, one after another.
fn pull_each<R: Threads + Sync>(
    cx: &CommandContext<'_, R>,
    peer: &mut Peer,
    link: &mut Link<'_>,
    names: &[SafeName],
    lines: &mut Vec<u8>,
) -> Result<(), AllocError>
    ensures others { peer.new ≡ record peer.old { store = peer.new.store; calls = peer.new.calls } }
    ensures pulls { OnOk result (PullsRound cx.now.moment names.now peer.old lines.old.items lines.new.items peer.new) }
{
    for name in names {
        pull_one(cx, peer, link, name, lines)?;
    }
    Ok(())
}

fn pull_one<R: Threads + Sync>(
    cx: &CommandContext<'_, R>,
    peer: &mut Peer,
    link: &mut Link<'_>,
    name: &SafeName,
    lines: &mut Vec<u8>,
) -> Result<(), AllocError>
    ensures others { peer.new ≡ record peer.old { store = peer.new.store; calls = peer.new.calls } }
    ensures pulls { OnOk result ((answer : AnyAnswer) × PullsOne cx.now.moment peer.old name.now answer peer.new
        × (lines.new.items ≡ lines.old.items ++ pull_line peer.old.side answer name.now)) }
{
    let answer = answer_of(cx, peer, link, name);
    push_pull(lines, peer.side, answer, name)
}

fn answer_of<R: Threads + Sync>(
    cx: &CommandContext<'_, R>,
    peer: &mut Peer,
    link: &mut Link<'_>,
    name: &SafeName,
) -> PullAnswer
    ensures { PullsOne cx.now.moment peer.old name.now result peer.new }
{
    pull_name(
        cx.rt,
        cx.alloc,
        &mut peer.store,
        &mut peer.calls,
        link,
        &OpenGate,
        name,
        cx.moment,
        peer.most,
    )
}
