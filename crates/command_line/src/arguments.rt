//! What the arguments of a program ask for.
ghost use Rattle.std.specs.Prelude.{◌≡◌, ◌↔◌, ◌++◌, map, drop, IfErr, IfOk, IsTrue, OnOk, bytes_eq};
ghost use Rattle.std.specs.List.{list_any};
ghost use Rattle.std.specs.String.{string_bytes};
ghost use Rattle.std.specs.Vec.Iter.{into_iter_items, into_iter_len};
ghost use Rattle.command_line.specs.Arguments.{AsksFor, IsName, IsOneOf, IsWithoutWork, file_name};
ghost use Rattle.command_line.specs.declared.arguments.Request.TheVariants.{NotUtf8};

use std::alloc::{AllocError, Global};
use std::env::Args;
use std::io::{self, ErrorKind};

/// An option with its value.
#[derive(Debug, Drop)]
pub struct OptionValue {
    /// The option.
    pub option: String,
    /// The argument behind it.
    pub value: String,
}

/// What the arguments of a program ask for.
#[derive(Debug, Drop)]
pub enum Request {
    /// The text that `--help` prints.
    Help,
    /// The version.
    Version,
    /// The work of the program.
    Work {
        /// The names of files, in their order. The name `-` is for standard input.
        names: Vec<String>,
        /// The options of the program that are there, each as often as it is there.
        /// [`has_option`] finds one.
        options: Vec<String>,
        /// The options that have a value, in their order, each as often as it is there.
        values: Vec<OptionValue>,
    },
    /// Nothing that any program does: the arguments are wrong.
    Usage,
    /// Nothing either: an argument is not UTF-8. [`NOT_UTF8`] says so.
    NotUtf8,
}

/// The line for an argument that is not UTF-8.
pub const NOT_UTF8: &str = "an argument is not UTF-8\n";

/// Returns what the arguments of a program ask for, which [`env::args`](std::env::args) gives: the
/// first is its own name. `options` are the options that the program has besides `--help` and
/// `--version`, and `with_value` are the ones that have a value: the argument behind them, whatever
/// it is. Without that argument they are wrong, and so is any other argument that begins with `-`
/// and is longer. The first argument that is wrong, or is `--help` or `--version`, decides. All
/// arguments behind `--` are names of files. Such a name that begins with `-` and is longer is
/// returned with `./` before it. One argument that is not UTF-8, wherever it is, makes the request
/// [`Request::NotUtf8`].
///
/// # Errors
///
/// An error comes where memory was refused.
pub fn parse_arguments(
    alloc: Global,
    arguments: io::Result<Args>,
    options: &[&str],
    with_value: &[&str],
) -> Result<Request, AllocError>
    ensures asked { IfOk arguments (λ given. IfOk result (AsksFor
        record { own = options.now; valued = with_value.now }
        (drop 1 (map string_bytes (into_iter_items given))))) }
    ensures unread { IfErr arguments (λ _. IfOk result (λ request. request ≡ NotUtf8)) }
{
    match arguments {
        Ok(mut given) => {
            let _program = given.next();
            requested(alloc, given, options, with_value)
        }
        Err(error) if error.kind() == ErrorKind::OutOfMemory => Err(AllocError),
        Err(_) => Ok(Request::NotUtf8),
    }
}

/// Whether an option is among the ones that are there.
pub fn has_option(options: &[String], option: &str) -> bool
    ensures { result ≡ list_any (λ o. bytes_eq (string_bytes o) option.now) options.now }
{
    for given in options {
        if given.as_str() == option {
            return true;
        }
    }
    false
}

/// What the arguments ask for.
fn requested(
    alloc: Global,
    arguments: Args,
    own: &[&str],
    with_value: &[&str],
) -> Result<Request, AllocError>
    ensures { IfOk result (AsksFor record { own = own.now; valued = with_value.now }
        (map string_bytes (into_iter_items arguments))) }
{
    let mut left = arguments;
    let mut names = Vec::new(alloc);
    let mut options = Vec::new(alloc);
    let mut values = Vec::new(alloc);
    while let Some(argument) = left.next() {
        if is_option(argument.as_str(), own) {
            options.push(argument)?;
        } else if is_option(argument.as_str(), with_value) {
            let Some(value) = left.next() else {
                return Ok(Request::Usage);
            };
            values.push(OptionValue {
                option: argument,
                value,
            })?;
        } else if is_name(argument.as_str()) {
            names.push(argument)?;
        } else if argument.as_str() == "--" {
            names = with_names(alloc, names, left)?;
            return Ok(Request::Work {
                names,
                options,
                values,
            });
        } else {
            return Ok(without_work(argument.as_str()));
        }
    }
    Ok(Request::Work {
        names,
        options,
        values,
    })
}

/// The names with those of the arguments that are left, which are all names of files.
fn with_names(alloc: Global, names: Vec<String>, left: Args) -> Result<Vec<String>, AllocError>
    ensures { IfOk result (λ all. map string_bytes all.items ≡ map string_bytes names.items ++
        map file_name (map string_bytes (into_iter_items left))) }
{
    let mut all = names;
    for argument in left {
        all.push(as_name(alloc, argument)?)?;
    }
    Ok(all)
}

/// The argument as a name of a file: `./` goes before one that begins with `-` and is longer.
fn as_name(alloc: Global, argument: String) -> Result<String, AllocError>
    ensures { IfOk result (λ name. string_bytes name ≡ file_name (string_bytes argument)) }
{
    if is_name(argument.as_str()) {
        return Ok(argument);
    }
    format!(in alloc; "./{argument}")
}

/// What an argument asks for that is no name and no option of the program.
fn without_work(argument: &str) -> Request
    ensures { IsWithoutWork argument.now result }
{
    match argument {
        "--help" => Request::Help,
        "--version" => Request::Version,
        _ => Request::Usage,
    }
}

/// Whether an argument is one of these options.
fn is_option(argument: &str, own: &[&str]) -> bool
    ensures { IsTrue result ↔ IsOneOf own.now argument.now }
{
    own.contains(&argument)
}

/// Whether an argument is the name of a file, or the one of standard input.
fn is_name(argument: &str) -> bool
    ensures { IsTrue result ↔ IsName argument.now }
{
    match argument.as_bytes() {
        [first, _, ..] => *first != b'-',
        _ => true,
    }
}
