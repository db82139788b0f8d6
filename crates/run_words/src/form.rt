//! The line form as a command of `clap`, whose values are all texts.

ghost use Rattle.std.specs.Prelude.{◌≡◌, IfOk, None, map, string_bytes};
ghost use Rattle.clap.specs.Words.{app_of, found_of, first_value, kind_of};
ghost use Rattle.run_words.specs.Lines.{line_of};
ghost use Rattle.run_words.specs.Form as form_is;

use crate::fault::WordsFault;
use clap::error::ErrorKind;
use clap::{Arg, ArgMatches, Command, Error};
use std::alloc::{AllocError, Global};

/// The form with one option more, of this name.
fn with_option<'a>(
    alloc: Global,
    form: Command<'a>,
    option: &'a str,
) -> Result<Command<'a>, AllocError>
    ensures { IfOk result (λ made. app_of made ≡
        form_is.with_option option.entry.now (app_of form.entry)) }
{
    form.arg(Arg::new(alloc, option).long(option))
}

/// The form with one name more.
fn with_name<'a>(alloc: Global, form: Command<'a>, name: &'a str) -> Result<Command<'a>, AllocError>
    ensures { IfOk result (λ made. app_of made ≡
        form_is.with_name name.entry.now (app_of form.entry)) }
{
    form.arg(Arg::new(alloc, name))
}

/// A form of which nothing is said yet.
fn plain_form<'a>(alloc: Global) -> Command<'a>
    ensures { app_of result ≡ form_is.plain_form }
{
    Command::new(alloc, "mptcp_sim")
        .no_binary_name(true)
        .disable_help_flag(true)
}

/// The form with the four options.
fn with_options<'a>(alloc: Global, form: Command<'a>) -> Result<Command<'a>, AllocError>
    ensures { IfOk result (λ made. app_of made ≡ form_is.with_options (app_of form.entry)) }
{
    let form = with_option(alloc, form, "mode")?;
    let form = with_option(alloc, form, "rounds")?;
    let form = with_option(alloc, form, "order")?;
    with_option(alloc, form, "number")
}

/// The form with the names of the script and of both files.
fn with_inputs<'a>(alloc: Global, form: Command<'a>) -> Result<Command<'a>, AllocError>
    ensures { IfOk result (λ made. app_of made ≡ form_is.with_inputs (app_of form.entry)) }
{
    let form = with_name(alloc, form, "script")?;
    let form = with_name(alloc, form, "file_a")?;
    with_name(alloc, form, "file_b")
}

/// The form with the names of what both sides read.
fn with_outputs<'a>(alloc: Global, form: Command<'a>) -> Result<Command<'a>, AllocError>
    ensures { IfOk result (λ made. app_of made ≡ form_is.with_outputs (app_of form.entry)) }
{
    let form = with_name(alloc, form, "read_by_b")?;
    with_name(alloc, form, "read_by_a")
}

/// The line form: four options and five names.
fn line_form<'a>(alloc: Global) -> Result<Command<'a>, AllocError>
    ensures { IfOk result (λ made. app_of made ≡ form_is.line_form) }
{
    let form = with_options(alloc, plain_form(alloc))?;
    let form = with_inputs(alloc, form)?;
    with_outputs(alloc, form)
}

/// Want of memory, or else words that break the form.
fn fault_by(error: &Error) -> WordsFault
    ensures { result ≡ form_is.fault_by (kind_of error.now) }
{
    match error.kind() {
        ErrorKind::OutOfMemory => WordsFault::Memory,
        _ => WordsFault::Usage,
    }
}

/// Takes the words apart.
pub fn matches<'a>(alloc: Global, words: &'a [String]) -> Result<ArgMatches<'a>, WordsFault>
    ensures ok { IfOk result (λ matches.
        line_of (map string_bytes words.entry.now) ≡ form_is.line_by
        (first_value (found_of matches))) }
    ensures usage { result ≡ Err WordsFault.Usage → line_of (map string_bytes words.entry.now) ≡
        None }
{
    let Ok(form) = line_form(alloc) else {
        return Err(WordsFault::Memory);
    };
    match form.try_get_matches_from(words) {
        Ok(matches) => Ok(matches),
        Err(error) => Err(fault_by(&error)),
    }
}
