//! Where the Requests of a book go.
ghost use Rattle.std.specs.Prelude.{Bool};
ghost use Rattle.bep_messages.specs.declared.request.Request.{Request};

use bep_messages::Request;
use crossbeam_channel::Sender;
use std::sync::Wait;

/// Where Requests go.
pub(crate) trait RequestSink {
    /// What each call comes to: what there was before it, the Request, whether it was taken, and what there is after it.
    ghost takes: { Self → Request → Bool → Self → Type 0 };

    /// Takes a Request, if there is room for it; else it is dropped. Does not wait. Returns whether it was taken.
    fn take<R: Wait>(&mut self, rt: &R, request: Request) -> bool
        ensures { takes self.old request result self.new };
}

impl RequestSink for Sender<Request> {
    ghost use Rattle.std.specs.Prelude.{⊤};

    ghost takes = { λ _ _ _ _. ⊤ };

    fn take<R: Wait>(&mut self, rt: &R, request: Request) -> bool {
        self.try_send(rt, request).is_ok()
    }
}
