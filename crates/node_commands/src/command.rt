//! Which command a line is: a word, or a word, a space and the id of a folder.
ghost use Rattle.std.specs.Prelude.{◌≡◌, ◌≢◌, MatchOption};
ghost use Rattle.node_commands.specs.Commands.{command_text};
ghost use Rattle.node_commands.specs.declared.command.Command.{Command as AnyCommand};

/// What a line asks for.
#[derive(Clone, Copy, Debug)]
pub(crate) enum Command<'a> {
    /// The folder of this id is scanned.
    Scan(&'a str),
    /// Its needed names.
    Need(&'a str),
    /// What its last scan left out.
    Skipped(&'a str),
    /// Its bests.
    Best(&'a str),
    /// Its local records.
    Local(&'a str),
    /// Its conflict copies.
    Conflicts(&'a str),
    /// Which folders there are.
    Folders,
    /// Which peers are up.
    Peers,
    /// How all is, for a person.
    Status,
    /// The same as one JSON document.
    StatusJson,
    /// The same as a page for a browser.
    StatusPage,
    /// How long its history is.
    History(&'a str),
    /// Whether its history leads to what it is.
    Verify(&'a str),
    /// The node ends.
    Quit,
}

impl<'a> Command<'a> {
    /// The command of a line without its line feed; `None` if it is none. Does not allocate. O(n) for n bytes.
    pub(crate) fn parse(line: &'a str) -> Option<Command<'a>>
        ensures { MatchOption result ((c : AnyCommand) → line.now ≢ command_text c) (λ c. line.now ≡ command_text c) }
    {
        if line == "peers" {
            return Some(Command::Peers);
        }
        if line == "folders" {
            return Some(Command::Folders);
        }
        if line == "status" {
            return Some(Command::Status);
        }
        if line == "status json" {
            return Some(Command::StatusJson);
        }
        if line == "status page" {
            return Some(Command::StatusPage);
        }
        if line == "quit" {
            return Some(Command::Quit);
        }
        if let Some(id) = line.strip_prefix("scan ") {
            return Some(Command::Scan(id));
        }
        if let Some(id) = line.strip_prefix("need ") {
            return Some(Command::Need(id));
        }
        if let Some(id) = line.strip_prefix("skipped ") {
            return Some(Command::Skipped(id));
        }
        if let Some(id) = line.strip_prefix("best ") {
            return Some(Command::Best(id));
        }
        if let Some(id) = line.strip_prefix("local ") {
            return Some(Command::Local(id));
        }
        if let Some(id) = line.strip_prefix("conflicts ") {
            return Some(Command::Conflicts(id));
        }
        if let Some(id) = line.strip_prefix("history ") {
            return Some(Command::History(id));
        }
        let id = line.strip_prefix("verify ")?;
        Some(Command::Verify(id))
    }
}
