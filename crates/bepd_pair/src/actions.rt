//! What a peer does for a command.
ghost use Rattle.bepd_pair.specs.Following.{Acts, UnlessPull};
ghost use Rattle.std.specs.Prelude.{◌≡◌};

use crate::command::Action;
use crate::context::CommandContext;
use crate::link::Link;
use crate::peer::Peer;
use crate::refused::Refused;
use crate::{files, pulls, scans};
use bep_session::Session;
use std::thread::Threads;

/// Has a peer do something, and appends what that prints.
pub(crate) fn act<T: Threads + Sync>(
    cx: &CommandContext<'_, T>,
    action: &Action<'_>,
    peer: &mut Peer,
    session: &mut Session,
    other: &mut Peer,
    other_session: &mut Session,
    lines: &mut Vec<u8>,
) -> Result<(), Refused>
    ensures acts { Acts cx.now.moment action.now peer.old result lines.old.items lines.new.items peer.new }
    ensures session { UnlessPull action.now (session.new ≡ session.old) }
    ensures other { UnlessPull action.now (other.new ≡ other.old) }
    ensures other_session { UnlessPull action.now (other_session.new ≡ other_session.old) }
{
    match action {
        Action::Put(name, text) => files::put(cx.alloc, &mut peer.store, name, text, cx.moment),
        Action::MakeDir(name) => files::make_dir(cx.alloc, &mut peer.store, name),
        Action::Delete(name) => files::delete(cx.alloc, &mut peer.store, name),
        Action::Conflicts(most) => {
            peer.most = *most;
            Ok(())
        }
        Action::Scan => scans::scan(cx, peer, lines),
        Action::Pull => {
            let mut link = Link {
                alloc: cx.alloc,
                session,
                other,
                other_session,
                moment: cx.moment,
            };
            pulls::pull(cx, peer, &mut link, lines)
        }
        Action::Show => scans::show(cx.alloc, peer, lines),
    }
}
