//! The commands, as lines.
ghost use Rattle.std.specs.Prelude.{◌≡◌, ◌≢◌, ◌≤◌, ◌<◌, ◌^◌, ℕ, ℤ, MatchOption, codes};
ghost use Rattle.sync_version.specs.declared.moment.TheConstants.Moment.{MAX_SECONDS};
ghost use Rattle.bepd_pair.specs.Words.{IsDecimal, IsLimit, IsWord, spaced};
ghost use Rattle.bepd_pair.specs.Commands.{IsArgument, IsLineOf, IsPlain, IsRest, IsTextOf, letter_of, word_of};
ghost use Rattle.bepd_pair.specs.declared.command.Side.{Side as AnySide};
ghost use Rattle.bepd_pair.specs.declared.command.Action.{Action as AnyAction};
ghost use Rattle.bepd_pair.specs.declared.command.Command.{Command as AnyCommand};

use std::str;
use sync_pull::MaxConflicts;
use sync_version::Moment;

/// One of the two peers.
#[derive(Clone, Copy, Debug, PartialEq, Eq)]
pub(crate) enum Side {
    A,
    B,
}

impl Side {
    /// The other peer.
    pub(crate) fn other(self) -> Side {
        match self {
            Side::A => Side::B,
            Side::B => Side::A,
        }
    }

    /// Its letter.
    pub(crate) fn letter(self) -> &'static str
        ensures { result.now ≡ letter_of self }
    {
        match self {
            Side::A => "A",
            Side::B => "B",
        }
    }
}

/// What a line asks for.
#[derive(Clone, Copy, Debug)]
pub(crate) enum Command<'a> {
    /// The moment is this one.
    Time(Moment),
    /// All pages of A go to B, and then all of B to A.
    Sync,
    /// A peer does this.
    At(Side, Action<'a>),
}

/// What a peer is to do.
#[derive(Clone, Copy, Debug)]
pub(crate) enum Action<'a> {
    /// The file has this text.
    Put(&'a str, &'a str),
    /// The directory is made.
    MakeDir(&'a str),
    /// The file or the empty directory is removed.
    Delete(&'a str),
    /// So many conflict copies are kept.
    Conflicts(MaxConflicts),
    /// All names are scanned.
    Scan,
    /// Each needed name is pulled once.
    Pull,
    /// Each local record is printed.
    Show,
}

/// The command of a line without its line feed; `None` if it is none. Words are separated by one space. O(n) for n bytes; does not
/// allocate.
pub(crate) fn command_of(line: &[u8]) -> Option<Command<'_>>
    ensures { MatchOption result ((c : AnyCommand) → IsLineOf line.now c → ⊥) (IsLineOf line.now) }
{
    let Ok(text) = str::from_utf8(line) else {
        return None;
    };
    match first_word(text) {
        Some((word, rest)) => command_with(word, rest),
        None if text == "sync" => Some(Command::Sync),
        None => None,
    }
}

/// The first word and what follows the space after it; `None` if there is no space.
fn first_word(text: &str) -> Option<(&str, &str)>
    ensures { MatchOption result (IsWord text.now)
        (λ parts. (text.now ≡ spaced parts.0.now parts.1.now) × IsWord parts.0.now) }
{
    text.split_once(' ')
}

/// The command of a line that begins with this word and a space.
fn command_with<'a>(word: &str, rest: &'a str) -> Option<Command<'a>>
    requires { IsWord word.now }
    ensures { MatchOption result ((c : AnyCommand) → IsTextOf (spaced word.now rest.now) c → ⊥)
        (IsTextOf (spaced word.now rest.now)) }
{
    if word == "time" {
        return Some(Command::Time(moment_of(rest)?));
    }
    match action_with(word, rest) {
        Some((side, action)) => Some(Command::At(side, action)),
        None => None,
    }
}

/// Which peer is to do what, by the first word of the line and what follows it.
fn action_with<'a>(word: &str, rest: &'a str) -> Option<(Side, Action<'a>)>
    ensures { MatchOption result ((side : AnySide) (action : AnyAction) → word.now ≡ word_of action → IsRest side action rest.now → ⊥)
        (λ found. (word.now ≡ word_of found.1) × IsRest found.0 found.1 rest.now) }
{
    if let Some(action) = plain_action(word) {
        return Some((side_of(rest)?, action));
    }
    let (side, argument) = first_word(rest)?;
    let side = side_of(side)?;
    match named_action(word, argument) {
        Some(action) => Some((side, action)),
        None => None,
    }
}

/// What a peer is to do with nothing named.
fn plain_action<'a>(word: &str) -> Option<Action<'a>>
    ensures { MatchOption result ((action : AnyAction) → IsPlain action → word.now ≡ word_of action → ⊥)
        (λ action. IsPlain action × (word.now ≡ word_of action)) }
{
    if word == "scan" {
        return Some(Action::Scan);
    }
    if word == "pull" {
        return Some(Action::Pull);
    }
    if word == "show" {
        return Some(Action::Show);
    }
    None
}

/// What a peer is to do with what the argument names.
fn named_action<'a>(word: &str, argument: &'a str) -> Option<Action<'a>>
    ensures { MatchOption result ((action : AnyAction) → word.now ≡ word_of action → IsArgument action argument.now → ⊥)
        (λ action. (word.now ≡ word_of action) × IsArgument action argument.now) }
{
    if word == "put" {
        let (name, text) = first_word(argument)?;
        return Some(Action::Put(name, text));
    }
    if word == "conflicts" {
        return Some(Action::Conflicts(limit_of(argument)?));
    }
    if first_word(argument).is_some() {
        return None;
    }
    if word == "mkdir" {
        return Some(Action::MakeDir(argument));
    }
    if word == "del" {
        return Some(Action::Delete(argument));
    }
    None
}

/// The peer of a letter.
fn side_of(word: &str) -> Option<Side>
    ensures { MatchOption result ((side : AnySide) → word.now ≡ letter_of side → ⊥) (λ side. word.now ≡ letter_of side) }
{
    if word == "A" {
        return Some(Side::A);
    }
    if word == "B" {
        return Some(Side::B);
    }
    None
}

/// The moment of a number.
fn moment_of(word: &str) -> Option<Moment>
    ensures { MatchOption result ((n : ℕ) → IsDecimal word.now n → n ≤ MAX_SECONDS → ⊥)
        (λ moment. IsDecimal word.now moment × (moment ≤ MAX_SECONDS)) }
{
    Moment::new(number_of(word)?)
}

/// How many conflict copies are kept, by a number.
fn limit_of(word: &str) -> Option<MaxConflicts>
    ensures { MatchOption result ((most : ℤ) → IsLimit word.now most → ⊥) (IsLimit word.now) }
{
    if word == "-1" {
        return MaxConflicts::new(-1);
    }
    let most = i32::try_from(number_of(word)?).ok()?;
    MaxConflicts::new(most)
}

/// The number of plain digits, if it fits.
fn number_of(word: &str) -> Option<u64>
    ensures { MatchOption result ((n : ℕ) → IsDecimal word.now n → n < 2 ^ 64 → ⊥) (IsDecimal word.now) }
{
    if word.starts_with('+') {
        return None;
    }
    word.parse::<u64>().ok()
}
