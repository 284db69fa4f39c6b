//! The whole program, from the words of the command line and the standard streams to the exit status.
ghost use Rattle.std.specs.Prelude.{◌≡◌, ◌⊎◌, ◌∷◌, [], List, ℕ, IfErr, OnOk, codes, false};
ghost use Rattle.std.specs.Io.KnownBytes.{Appends};
ghost use Rattle.bepd.specs.Counts.{failed_after, input_of, output_of};
ghost use Rattle.bepd.specs.CommandLine.{AreForTelling, IsCommandLine, IsRequested, begins_with_hyphen};
ghost use Rattle.bepd.specs.Runs.{Does, Ends, EndsRun, Lists, Plays, Shows, TellsRun, streams};
ghost use Rattle.bepd.specs.declared.command.Request.{Request as AnyRequest};
ghost use Rattle.bepd.specs.declared.ending.Ending.TheVariants.{Done};
ghost use Rattle.bepd_new.specs.Failures.{new_failure_status, new_failure_text};
ghost use Rattle.bepd_run.specs.Failures.{run_failure_status, run_failure_text};

use crate::best::best;
use crate::command::{Request, request_of, run_about};
use crate::counted::{CountedReader, CountedWriter};
use crate::ending::{Ending, Failure};
use crate::playing::ending_of;
use crate::received::own_device;
use bepd_new::{NewFailure, new_config};
use bepd_pair::pair;
use bepd_run::{
    ProgressStyle, RunFailure, RunStyle, StateFiles, Stores, UnixSockets, ask_run, check_config,
    run_config, tell_failure,
};
use folder_db::IndexedFolder;
use std::fs::{File, Files};
use std::io::{self, BufRead, Write};
use std::net::{Net, TcpListener, TcpStream};
use std::os::fd::AsRawFd;
use std::sync::Wait;
use std::thread::Threads;
use std::time::Clock;

/// The exit status of a refused command line.
const REFUSED_STATUS: u8 = 1;

/// How the program ended.
#[derive(Debug, Drop)]
pub(crate) struct Outcome {
    /// The exit status.
    pub(crate) status: u8,
    /// Whether standard error took what was written to it.
    pub(crate) reported: io::Result<()>,
}

/// How the program was started.
#[derive(Clone, Copy, Debug, PartialEq, Eq)]
pub(crate) struct Started {
    /// How it is shown how far something is.
    pub(crate) progress: ProgressStyle,
    /// Whether it has an input. (A daemon may have closed it.)
    pub(crate) has_input: bool,
}

/// Does what the words of the command line ask for, of which the first is the program's name.
///
/// `best FOLDER` reads the input and lists on the output; `pair` reads commands from the input and writes what they come to on the
/// output; `run` reads commands, if there is an input and it is to read it, and writes answers likewise, and tells what happens on `errors`, unless it is to be quiet;
/// `ask` has a run do a command, and writes its answer to the output. The help
/// and the version go to the output, and why words are refused to `errors`, as does the line of each ending with a status above 0.
pub(crate) fn run<T, S, R, W, E>(
    rt: &T,
    stores: &S,
    words: &io::Result<Vec<String>>,
    started: Started,
    input: &mut CountedReader<R>,
    output: &mut CountedWriter<W>,
    errors: &mut E,
) -> Outcome
where
    T: AllocGlobal
        + Clock
        + Files<File = File>
        + Net<Listener = TcpListener, Stream = TcpStream>
        + StateFiles
        + Sync
        + Threads
        + UnixSockets
        + Wait,
    S: Stores + Sync,
    S::Store: Send,
    R: BufRead + AsRawFd + Send,
    W: Write + AsRawFd + Send,
    E: Write + AsRawFd + Send,
    // What the words ask for is done, and nothing else.
    ensures does { (asked : AnyRequest) × IsRequested words.now asked × Does asked result
        (streams (input_of R.remaining input.old) (output_of W.contents output.old) (E.contents errors.old))
        (streams (input_of R.remaining input.new) (output_of W.contents output.new) (E.contents errors.new)) }
    // The words `PROGRAM best FOLDER` ask for the listing of just that folder.
    ensures best { (program folder : List ℕ)
        → IsCommandLine words.now (program ∷ codes "best" ∷ folder ∷ []) → begins_with_hyphen folder ≡ false
        → Lists folder result
        (streams (input_of R.remaining input.old) (output_of W.contents output.old) (E.contents errors.old))
        (streams (input_of R.remaining input.new) (output_of W.contents output.new) (E.contents errors.new)) }
    // The words `PROGRAM pair` ask for two peers.
    ensures pair { (program : List ℕ) → IsCommandLine words.now (program ∷ codes "pair" ∷ [])
        → Plays result
        (streams (input_of R.remaining input.old) (output_of W.contents output.old) (E.contents errors.old))
        (streams (input_of R.remaining input.new) (output_of W.contents output.new) (E.contents errors.new)) }
    // The words `PROGRAM run --config FILE` ask for a node.
    ensures node { (program path : List ℕ)
        → IsCommandLine words.now (program ∷ codes "run" ∷ codes "--config" ∷ path ∷ [])
        → begins_with_hyphen path ≡ false
        → TellsRun result
        (streams (input_of R.remaining input.old) (output_of W.contents output.old) (E.contents errors.old))
        (streams (input_of R.remaining input.new) (output_of W.contents output.new) (E.contents errors.new)) }
    // Standard error stays as it was where the status is 0, unless a node tells what happens.
    ensures quiet { AreForTelling words.now ⊎ (result.status ≡ 0 → errors.new ≡ errors.old) }
{
    let alloc = rt.alloc();
    let about = run_about(alloc);
    match request_of(alloc, words, &about) {
        Request::Best(folder) => {
            let empty = IndexedFolder::new(alloc, own_device());
            let ending = best(alloc, folder, empty, input, output);
            end(ending, errors)
        }
        Request::Pair => {
            let played = pair(rt, alloc, &mut input.inner, &mut output.inner);
            end(ending_of(played), errors)
        }
        Request::Run(words) => {
            let how = RunStyle {
                progress: Some(started.progress),
                reads_input: started.has_input && !words.has_no_input,
                is_verbose: words.is_verbose,
            };
            let (input, output) = (&mut input.inner, &mut output.inner);
            let ran = run_config(rt, stores, words.path, how, input, output, errors);
            end_run(rt, ran, errors)
        }
        Request::QuietRun(words) => {
            let how = RunStyle {
                progress: None,
                reads_input: started.has_input && !words.has_no_input,
                is_verbose: false,
            };
            let (input, output) = (&mut input.inner, &mut output.inner);
            let ran = run_config(rt, stores, words.path, how, input, output, errors);
            end_run(rt, ran, errors)
        }
        Request::Ask(words) => {
            let asked = ask_run(rt, alloc, &words, &mut output.inner);
            end_run(rt, asked, errors)
        }
        Request::Check(path) => {
            let checked = check_config(rt, alloc, path, &mut output.inner);
            end_run(rt, checked, errors)
        }
        Request::New(words) => {
            let made = new_config(rt, alloc, &words, &mut output.inner);
            end_run(rt, made.map_err(run_failure), errors)
        }
        Request::Text(text) => show(text.as_str(), output, errors),
        Request::Refused(text) => Outcome {
            status: REFUSED_STATUS,
            reported: errors.write_all(text.as_bytes()),
        },
        Request::OutOfMemory => end(Ending::Failed(Failure::OutOfMemory), errors),
    }
}

/// Ends with the ending's status, after its line on standard error where it isn't done.
fn end<E: Write>(ending: Ending, errors: &mut E) -> Outcome
    ensures ends { Ends ending result (E.contents errors.old) (E.contents errors.new) }
    ensures quiet { ending ≡ Done → errors.new ≡ errors.old }
{
    let reported = match ending {
        Ending::Done => Ok(()),
        _ => writeln!(errors, "{ending}"),
    };
    Outcome {
        status: ending.status(),
        reported,
    }
}

/// Ends as a node did, after its line on standard error where it did not end well.
fn end_run<T: AllocGlobal + Net + Wait, E: Write + AsRawFd>(
    rt: &T,
    ran: Result<(), RunFailure>,
    errors: &mut E,
) -> Outcome
    ensures ends { EndsRun ran result (E.contents errors.old) (E.contents errors.new) }
    ensures quiet { result.status ≡ 0 → errors.new ≡ errors.old }
{
    match ran {
        Ok(()) => Outcome {
            status: 0,
            reported: Ok(()),
        },
        Err(failure) => Outcome {
            status: failure.status(),
            reported: tell_failure(rt, rt.alloc(), &failure, errors),
        },
    }
}

/// How it is told why no configuration was made.
fn run_failure(failure: NewFailure) -> RunFailure
    ensures status { run_failure_status result ≡ new_failure_status failure }
    ensures text { run_failure_text result ≡ new_failure_text failure }
{
    match failure {
        NewFailure::Refused(about) => RunFailure::Refused(about),
        NewFailure::Exists(name) => RunFailure::Exists(name),
        NewFailure::File(about) => RunFailure::File(about),
        NewFailure::OutOfMemory => RunFailure::OutOfMemory,
        NewFailure::ReadOrWrite => RunFailure::ReadOrWrite,
    }
}

/// Prints the help or the version.
fn show<W: Write, E: Write>(text: &str, output: &mut CountedWriter<W>, errors: &mut E) -> Outcome
    ensures shows { Shows text.now result (output_of W.contents output.old) (output_of W.contents output.new)
        (E.contents errors.old) (E.contents errors.new) }
    ensures quiet { result.status ≡ 0 → errors.new ≡ errors.old }
{
    match print(text, output) {
        Ok(()) => Outcome {
            status: 0,
            reported: Ok(()),
        },
        Err(failure) => end(Ending::Failed(failure), errors),
    }
}

fn print<W: Write>(text: &str, output: &mut CountedWriter<W>) -> Result<(), Failure>
    ensures written { OnOk result (Appends (W.contents output.old.inner) (W.contents output.new.inner) text.now) }
    ensures failed { output.new.failed ≡ failed_after result output.old.failed }
    ensures failure { IfErr result (λ failure. failure ≡ Failure.Write) }
{
    output.write_all(text.as_bytes())?;
    output.flush()
}
