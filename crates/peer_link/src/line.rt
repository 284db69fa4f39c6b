//! The interface of what a connection goes over, as a socket: any thread can hang it up.
/// What a connection goes over.
pub trait Line {
    /// Ends it: a read or a write of it that waits, and each one that is made later, ends at once, as at the end of the stream or with a
    /// failure. It may be called more than once, by any thread.
    fn hang_up(&self);
}
