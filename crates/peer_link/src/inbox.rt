//! Where what a reader passes on goes.
ghost use Rattle.std.specs.Prelude.{◌≡◌};
ghost use Rattle.peer_link.specs.Requests.{shortened};

use crate::limits::MAX_REQUEST_NAME_BYTES;
use crate::line::Line;
use crate::told::ToldFolders;
use bep_messages::{ClusterConfig, DIGEST_LEN, Request, ShortOctets, Text};
use crossbeam_channel::Sender;
use peer_asks::AskBook;
use peer_reader::{Inbox, Passed};
use peer_server::PeerRequest;
use std::alloc::Global;
use std::sync::Wait;

/// The ends of the channels to the indexer and to the server, and the Requests of this device. The workers end once it is dropped. Where the connection can't go on,
/// it hangs the line up.
#[derive(Drop)]
pub(crate) struct LinkInbox<'a, R, L> {
    rt: &'a R,
    alloc: Global,
    line: &'a L,
    configs: Sender<ClusterConfig>,
    requests: Sender<PeerRequest>,
    book: &'a AskBook,
    told: ToldFolders,
}

impl<R: Wait, L: Line> Inbox for LinkInbox<'_, R, L> {
    fn take(&mut self, passed: Passed) {
        match passed {
            Passed::Nothing => {}
            Passed::Config(config) => self.tell(config),
            Passed::Unshared(id) => self.pass_over(id),
            Passed::Asked(folder, request) => {
                let asked = PeerRequest {
                    folder,
                    request: shorten(self.alloc, request),
                };
                // (a server that has ended answers no more)
                let _ = self.requests.send(self.rt, asked);
            }
            Passed::Answered(response) => self.book.answer(self.rt, response),
            Passed::Unknown(_) => self.book.count_unknown(self.rt),
        }
    }

    fn next_ask(&mut self) -> Option<i32> {
        self.book.next_ask(self.rt)
    }
}

impl<'a, R: Wait, L: Line> LinkInbox<'a, R, L> {
    pub(crate) fn new(
        rt: &'a R,
        alloc: Global,
        line: &'a L,
        channels: (Sender<ClusterConfig>, Sender<PeerRequest>),
        book: &'a AskBook,
        told: ToldFolders,
    ) -> LinkInbox<'a, R, L> {
        let (configs, requests) = channels;
        LinkInbox {
            rt,
            alloc,
            line,
            configs,
            requests,
            book,
            told,
        }
    }

    /// Nothing comes any more: the indexer and the server end once they have done what is there, and no one waits for a Response. Returns what was told of the folders.
    pub(crate) fn close(self) -> ToldFolders {
        self.book.end(self.rt);
        let LinkInbox { told, .. } = self;
        told
    }

    // Gives the indexer the first ClusterConfig; it passes over later ones.
    fn tell(&mut self, config: ClusterConfig) {
        if self.told.hear(&config) {
            let _ = self.configs.send(self.rt, config);
        }
        self.end_if_anew();
    }

    fn pass_over(&mut self, id: Text) {
        self.told.pass_over(id.as_str());
        self.end_if_anew();
    }

    fn end_if_anew(&self) {
        if self.told.anew().is_some() {
            self.line.hang_up();
        }
    }
}

// A Request with the same answer that takes little memory: without the folder's id, of which the place is known; without a name that is too long
// for a file, which is as one that no file may have; and with a digest that no bytes have in place of one that is too long. Does not allocate.
fn shorten(alloc: Global, request: Request) -> Request
    ensures { result ≡ shortened request }
{
    let mut request = request;
    request.folder = Text::new(alloc);
    if request.name.as_str().len() > MAX_REQUEST_NAME_BYTES {
        request.name = Text::new(alloc);
    }
    if request.hash.as_slice().len() > DIGEST_LEN {
        request.hash = ShortOctets::from_slice(alloc, &[0]).unwrap();
    }
    request
}
