ghost use Rattle.std.specs.Prelude.{◌≡◌, Bool, List, Some, IfOk, MatchResult, false};
ghost use Rattle.clap.specs.Words.{app_of, first_value, found_of, kind_of, rule_of};
ghost use Rattle.command_line.specs.declared.types.WantsError.TheVariants.{NoMemory};
ghost use Rattle.clap.specs.Simple.{with_rule};
ghost use Rattle.command_line.specs.Options.{app_by, app_for, rule_by};
ghost use Rattle.command_line.specs.Taken.{form_seen, texts_of};
ghost use Rattle.command_line.specs.Words.{Item, bytes_of, form_of, items_in, value_of};

use crate::table::{Form, form_of};
use crate::types::{Command, WantsError};
use clap::error::ErrorKind;
use clap::{Arg, ArgAction, ArgMatches};
use std::alloc::{AllocError, Global};

/// The values that words give, where they are in the form of a command: nothing but memory may then
/// be refused.
pub fn parse<'a>(
    alloc: Global,
    command: Command,
    words: &'a [String],
) -> Result<ArgMatches<'a>, WantsError>
    ensures { (items : List Item) → items_in (form_of command) (bytes_of words.now) ≡ Some items
        → MatchResult result (λ matches. first_value (found_of matches) ≡ value_of items)
        (λ why. why ≡ NoMemory) }
{
    let Ok(form) = clap_form(alloc, form_of(command)) else {
        return Err(WantsError::NoMemory);
    };
    match form.try_get_matches_from(words) {
        Ok(matches) => Ok(matches),
        Err(error) => Err(refusal(error.kind())),
    }
}

// The form of a command, as `clap` has it.
fn clap_form<'a>(alloc: Global, form: Form) -> Result<clap::Command<'a>, AllocError>
    ensures { IfOk result (λ command. app_of command ≡ app_for (form_seen form)) }
{
    match form {
        Form::Options(names) | Form::Needed(names) => clap_names(alloc, names, true),
        Form::Places(names) => clap_names(alloc, names, false),
    }
}

// A command with a value for each of these names, spelled before it or not. There is no help and
// no version among them.
fn clap_names<'a>(
    alloc: Global,
    names: &'static [&'static str],
    spelled: bool,
) -> Result<clap::Command<'a>, AllocError>
    ensures { IfOk result (λ command. app_of command ≡ app_by spelled (texts_of names.now)) }
{
    let mut command = clap::Command::new(alloc, "hall")
        .no_binary_name(true)
        .disable_help_flag(true);
    for name in names {
        command = with_value(command, named_value(alloc, name, spelled))?;
    }
    Ok(command)
}

// A value of this name, which is spelled before it or not.
fn named_value<'a>(alloc: Global, name: &'static str, spelled: bool) -> Arg<'a>
    ensures rule { rule_of result ≡ rule_by spelled name.now }
    ensures own { result.global ≡ false }
{
    let value = Arg::new(alloc, name).action(ArgAction::Set);
    if spelled { value.long(name) } else { value }
}

// The command with one value more, which is its own.
fn with_value<'a>(
    command: clap::Command<'a>,
    value: Arg<'a>,
) -> Result<clap::Command<'a>, AllocError>
    requires own { value.global ≡ false }
    ensures { IfOk result (λ more. app_of more
        ≡ with_rule (app_of command.entry) (rule_of value.entry)) }
{
    command.arg(value)
}

// What a refusal of words comes to.
fn refusal(kind: ErrorKind) -> WantsError
    ensures { kind ≡ ErrorKind.OutOfMemory → result ≡ NoMemory }
{
    match kind {
        ErrorKind::OutOfMemory => WantsError::NoMemory,
        _ => WantsError::Usage,
    }
}
