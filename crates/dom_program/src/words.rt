//! The program's words: whose lines are written, and which file is read.
ghost use Rattle.std.specs.Prelude.{◌≡◌, IfErr, IfOk, option_map};
ghost use Rattle.std.specs.IoError.{error_kind};
ghost use Rattle.clap.specs.Words.{app_of, found_of, matches_of, rows_of};
ghost use Rattle.dom_text.specs.Readers.{owner_of as spec_owner_of};
ghost use Rattle.dom_streams.specs.declared.fault.RunFault.TheVariants.{Memory};
ghost use Rattle.dom_program.specs.Words.{AreTaken, HaveForm, NamesAnOwner, command_line as spec_command_line};
ghost use Rattle.dom_program.specs.Words.{file_among, file_in, owner_among, texts_of, view_in};

use crate::exit_cause::ExitCause;
use clap::{Arg, ArgMatches, Command};
use dom_base::Owner;
use dom_reader::owner_of;
use dom_streams::RunFault;
use std::alloc::{AllocError, Global};
use std::io::{Error, ErrorKind};

/// What the words ask for: the owner whose lines are written (all lines, if there is none), and the file that is read.
#[derive(Clone, Copy)]
pub struct Request<'a> {
    pub view: Option<Owner>,
    pub file: Option<&'a str>,
}

/// The owner whose word this is, or `None` for any other text. A word is `p`, or `c` and one to eight numbers from 1 on, with dots
/// between them and without leading zeros (own rule).
pub fn view_of(word: &str) -> Option<Owner>
    ensures { result ≡ spec_owner_of word.now }
{
    owner_of(word.as_bytes())
}

/// Why the program stops if its words could not be read: memory ran out, or bytes are no text, which is `Usage` (own rule).
pub fn words_refused(error: &Error) -> ExitCause
    ensures memory { error_kind error.now ≡ ErrorKind.OutOfMemory → result ≡ ExitCause.Run Memory }
    ensures usage { (error_kind error.now ≡ ErrorKind.OutOfMemory → ⊥) → result ≡ ExitCause.Usage }
{
    match error.kind() {
        ErrorKind::OutOfMemory => ExitCause::Run(RunFault::Memory),
        _ => ExitCause::Usage,
    }
}

/// What the program's words ask for. The first word is the program's own name. It takes `--view` with an owner's word after it or after
/// `=`, and one other word, which may stand after `--`. They may stand in any order, each at most once (own rule). Other words are
/// refused as `Usage`. The only other error is that memory ran out.
pub fn request_of<'a>(alloc: Global, words: &'a [String]) -> Result<Request<'a>, ExitCause>
    ensures taken { IfOk result (λ _. AreTaken (texts_of words.now)) }
    ensures view { IfOk result (λ request. request.view ≡ view_in (texts_of words.now)) }
    ensures file { IfOk result (λ request. option_map (λ file. file.now) request.file ≡ file_in (texts_of words.now)) }
    ensures usage { IfErr result (λ cause. cause ≡ ExitCause.Usage → AreTaken (texts_of words.now) → ⊥) }
    ensures memory { IfErr result (λ cause. (cause ≡ ExitCause.Usage → ⊥) → cause ≡ ExitCause.Run Memory) }
{
    request_in(&matches_in(alloc, words)?)
}

/// What the words that were given to the parts of the command line ask for: the owner whose word stands after `--view`, and the file. The
/// only error is `Usage`, exactly if the word after `--view` is not the word of an owner. Nothing is allocated.
fn request_in<'a>(matches: &ArgMatches<'a>) -> Result<Request<'a>, ExitCause>
    ensures taken { IfOk result (λ _. NamesAnOwner (rows_of (found_of matches.now))) }
    ensures view { IfOk result (λ request. request.view ≡ owner_among (rows_of (found_of matches.now))) }
    ensures file { IfOk result (λ request. option_map (λ file. file.now) request.file ≡ file_among (rows_of (found_of matches.now))) }
    ensures refused { IfErr result (λ cause. (cause ≡ ExitCause.Usage) × (NamesAnOwner (rows_of (found_of matches.now)) → ⊥)) }
{
    let file = matches.get_str("file");
    match matches.get_str("view") {
        None => Ok(Request { view: None, file }),
        Some(word) => match view_of(word) {
            None => Err(ExitCause::Usage),
            view => Ok(Request { view, file }),
        },
    }
}

/// What the words give to the parts of the command line. An error is `Usage` if they do not have its form, else that memory ran out.
fn matches_in<'a>(alloc: Global, words: &'a [String]) -> Result<ArgMatches<'a>, ExitCause>
    ensures form { IfOk result (λ _. HaveForm (texts_of words.now)) }
    ensures rows { IfOk result (λ found. rows_of (found_of found) ≡ matches_of spec_command_line (texts_of words.now)) }
    ensures usage { IfErr result (λ cause. cause ≡ ExitCause.Usage → HaveForm (texts_of words.now) → ⊥) }
    ensures memory { IfErr result (λ cause. (cause ≡ ExitCause.Usage → ⊥) → cause ≡ ExitCause.Run Memory) }
{
    let command = command_line(alloc)?;
    Ok(command.try_get_matches_from(words)?)
}

/// The parts of the command line. There is no call for help among them, so it is refused like any other word.
fn command_line<'a>(alloc: Global) -> Result<Command<'a>, AllocError>
    ensures { IfOk result (λ command. app_of command ≡ spec_command_line) }
{
    let view = Arg::new(alloc, "view").long("view");
    let file = Arg::new(alloc, "file");
    Command::new(alloc, "domrun")
        .disable_help_flag(true)
        .arg(view)?
        .arg(file)
}
