// The words, by a command with a single option.
ghost use Rattle.std.specs.Prelude.{◌≡◌, ◌≢◌, map, option_map, string_bytes, None, Some, IfOk, IfSome, IsErrOf};
ghost use Rattle.clap.specs.Words.{app_of, kind_of};
ghost use Rattle.command_line.specs.Options as options;
ghost use Rattle.command_line.specs.Requests.{HasSize, asked, asked_with};

use crate::request::{Request, WordsStop};
use crate::size::size_of;
use clap::error::ErrorKind;
use clap::{Arg, Command, Error};
use std::alloc::{AllocError, Global};

// What is asked for where the option has this value, or isn't there.
fn request_with(value: Option<&str>) -> Option<Request>
    ensures asked { result ≡ asked_with (option_map (λ text. text.now) value.entry) }
    ensures size { IfSome result HasSize }
{
    match value {
        None => Some(Request::Read),
        Some(text) => Some(Request::Make(size_of(text)?)),
    }
}

// The command with its single option.
fn command<'a>(alloc: Global) -> Result<Command<'a>, AllocError>
    ensures { IfOk result (λ made. app_of made ≡ options.command) }
{
    let make = Arg::new(alloc, "make").long("make");
    Command::new(alloc, "mps360")
        .no_binary_name(true)
        .disable_help_flag(true)
        .arg(make)
}

// Why an error of the command refuses the words.
fn stop_of(error: &Error) -> WordsStop
    ensures { result ≡ WordsStop.Refused → kind_of error.now ≢ ErrorKind.OutOfMemory }
{
    match error.kind() {
        ErrorKind::OutOfMemory => WordsStop::NoMemory,
        _ => WordsStop::Refused,
    }
}

/// What these words ask for, which are those after the program's name.
///
/// Without words the job is read; with `--make N` or `--make=N` the job of size N is made, where N is a whole number from 1
/// to 60 in decimal digits without a sign or a leading zero. The word `--` may stand after either. All else is refused.
pub fn request_of(alloc: Global, words: &[String]) -> Result<Request, WordsStop>
    ensures accepted { IfOk result (λ request. asked (map string_bytes words.now) ≡ Some request) }
    ensures size { IfOk result HasSize }
    ensures refused { IsErrOf result WordsStop.Refused → asked (map string_bytes words.now) ≡ None }
{
    match command(alloc)?.try_get_matches_from(words) {
        Ok(matches) => request_with(matches.get_str("make")).ok_or(WordsStop::Refused),
        Err(error) => Err(stop_of(&error)),
    }
}
