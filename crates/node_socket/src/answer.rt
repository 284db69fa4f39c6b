//! The answer of a run, as it comes over the socket.
ghost use Rattle.std.specs.Prelude.{◌↔◌, IsTrue, MatchOption};
ghost use Rattle.node_socket.specs.Answers.{IsAnswer, IsNotDone};

/// The line after an answer.
pub(crate) const END_LINE: &str = ".\n";

/// A whole answer.
#[derive(Clone, Copy, Debug)]
pub struct Answer<'a> {
    /// Its lines.
    pub text: &'a str,
}

impl<'a> Answer<'a> {
    /// The answer in what was read up to the end of the connection; `None` where it is not whole. Does not allocate. O(1).
    pub fn of(read: &'a str) -> Option<Answer<'a>>
        ensures { MatchOption result ((text : _) → ¬ IsAnswer text read.now) (λ answer. IsAnswer answer.text.now read.now) }
    {
        let text = read.strip_suffix(END_LINE)?;
        if text.is_empty() || text.ends_with('\n') {
            Some(Answer { text })
        } else {
            None
        }
    }

    /// Whether it says that the command was not done, or not to its end: a line of it begins with `error`. Does not allocate. O(n).
    pub fn is_error(&self) -> bool
        ensures { IsTrue result ↔ IsNotDone self.now.text.now }
    {
        self.text.starts_with("error ") || self.text.contains("\nerror ")
    }
}
