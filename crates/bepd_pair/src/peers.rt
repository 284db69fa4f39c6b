//! The two peers, and what commands do to them.
ghost use Rattle.std.specs.Prelude.{◌≡◌, ◌≢◌, ◌++◌, [], IfOk, OnOk, Some, option_copied};
ghost use Rattle.bepd_pair.specs.Lines.{refused_line};
ghost use Rattle.bepd_pair.specs.Commands.{IsLineOf};
ghost use Rattle.bepd_pair.specs.Words.{Text};

use crate::actions::act;
use crate::command::{Action, Command, Side, command_of};
use crate::context::CommandContext;
use crate::indexes::send_all;
use crate::link::greet;
use crate::output::{push_refused, push_sync};
use crate::peer::Peer;
use crate::refused::Refused;
use bep_session::Session;
use std::alloc::{AllocError, Global};
use std::thread::Threads;
use sync_version::Moment;

/// Two peers, A and B, their ends of the connection, and the moment at which commands are given.
#[derive(Drop)]
pub(crate) struct Peers {
    a: Peer,
    b: Peer,
    a_session: Session,
    b_session: Session,
    moment: Moment,
}

impl Peers {
    ghost use Rattle.bepd_pair.specs.Following.{Follows, FollowsText};
    ghost use Rattle.bepd_pair.specs.Playing.{AreNew};

    /// Two peers of an empty folder, without files, that have greeted each other, at moment 0. Fails if out of memory.
    pub(crate) fn new(alloc: Global) -> Result<Peers, AllocError>
        ensures { IfOk result AreNew }
    {
        let moment = Moment::new(0).unwrap();
        let mut a_session = Session::new(alloc, moment);
        let mut b_session = Session::new(alloc, moment);
        greet(alloc, Side::A, &mut a_session, &mut b_session, moment)?;
        greet(alloc, Side::B, &mut b_session, &mut a_session, moment)?;
        Ok(Peers {
            a: Peer::new(alloc, Side::A)?,
            b: Peer::new(alloc, Side::B)?,
            a_session,
            b_session,
            moment,
        })
    }

    /// Follows a line, which is `None` if it is too long, and returns what it prints. Fails if out of memory, and then the command may
    /// be done in part.
    pub(crate) fn follow_line<T: Threads + Sync>(
        &mut self,
        rt: &T,
        alloc: Global,
        line: Option<&[u8]>,
    ) -> Result<Vec<u8>, AllocError>
        ensures { IfOk result (λ printed.
            FollowsText (option_copied line.entry) self.old printed.items self.new) }
    {
        let mut lines = Vec::new(alloc);
        let Some(line) = line else {
            push_refused(&mut lines, Refused::UnknownCommand)?;
            return Ok(lines);
        };
        let Some(command) = command_of(line) else {
            push_refused(&mut lines, Refused::UnknownCommand)?;
            return Ok(lines);
        };
        self.follow(rt, alloc, &command, &mut lines)?;
        Ok(lines)
    }

    /// Does a command, and prints what it comes to, a refusal too. Fails if out of memory.
    fn follow<T: Threads + Sync>(
        &mut self,
        rt: &T,
        alloc: Global,
        command: &Command<'_>,
        lines: &mut Vec<u8>,
    ) -> Result<(), AllocError>
        requires { lines.old.items ≡ [] }
        ensures { OnOk result ((line : Text) → IsLineOf line command.now →
            FollowsText (Some line) self.old lines.new.items self.new) }
    {
        match self.run(rt, alloc, command, lines) {
            Ok(()) => Ok(()),
            Err(refused) => tell(lines, refused),
        }
    }

    /// Does a command, and prints what it comes to, unless it is refused.
    fn run<T: Threads + Sync>(
        &mut self,
        rt: &T,
        alloc: Global,
        command: &Command<'_>,
        lines: &mut Vec<u8>,
    ) -> Result<(), Refused>
        ensures { Follows command.now self.old result lines.old.items lines.new.items self.new }
    {
        match command {
            Command::Time(moment) => {
                self.moment = *moment;
                Ok(())
            }
            Command::Sync => self.sync(alloc, lines),
            Command::At(Side::A, action) => self.act_at_a(rt, alloc, action, lines),
            Command::At(Side::B, action) => self.act_at_b(rt, alloc, action, lines),
        }
    }

    /// Sends all pages of A to B, and then all of B to A.
    fn sync(&mut self, alloc: Global, lines: &mut Vec<u8>) -> Result<(), Refused>
        ensures { Follows Command.Sync self.old result lines.old.items lines.new.items self.new }
    {
        let to_b = send_all(
            alloc,
            &mut self.a,
            &mut self.a_session,
            &mut self.b,
            &mut self.b_session,
            self.moment,
        )?;
        let to_a = send_all(
            alloc,
            &mut self.b,
            &mut self.b_session,
            &mut self.a,
            &mut self.a_session,
            self.moment,
        )?;
        Ok(push_sync(lines, to_b, to_a)?)
    }

    /// Has peer A do something.
    fn act_at_a<T: Threads + Sync>(
        &mut self,
        rt: &T,
        alloc: Global,
        action: &Action<'_>,
        lines: &mut Vec<u8>,
    ) -> Result<(), Refused>
        ensures { Follows (Command.At Side.A action.now) self.old result lines.old.items lines.new.items self.new }
    {
        let cx = CommandContext {
            rt,
            alloc,
            moment: self.moment,
        };
        act(
            &cx,
            action,
            &mut self.a,
            &mut self.a_session,
            &mut self.b,
            &mut self.b_session,
            lines,
        )
    }

    /// Has peer B do something.
    fn act_at_b<T: Threads + Sync>(
        &mut self,
        rt: &T,
        alloc: Global,
        action: &Action<'_>,
        lines: &mut Vec<u8>,
    ) -> Result<(), Refused>
        ensures { Follows (Command.At Side.B action.now) self.old result lines.old.items lines.new.items self.new }
    {
        let cx = CommandContext {
            rt,
            alloc,
            moment: self.moment,
        };
        act(
            &cx,
            action,
            &mut self.b,
            &mut self.b_session,
            &mut self.a,
            &mut self.a_session,
            lines,
        )
    }
}

/// Appends the line of a refusal, unless it is for memory, which is returned.
fn tell(lines: &mut Vec<u8>, refused: Refused) -> Result<(), AllocError>
    ensures told { OnOk result (lines.new.items ≡ lines.old.items ++ refused_line refused) }
    ensures memory { OnOk result (refused ≢ Refused.OutOfMemory) }
{
    match refused {
        Refused::OutOfMemory => Err(AllocError),
        _ => push_refused(lines, refused),
    }
}
