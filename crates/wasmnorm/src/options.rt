//! The options of a run, as the arguments choose them.
ghost use Rattle.std.specs.Prelude.{◌≡◌, ◌↔◌, IfOk, codes, map};
ghost use Rattle.wasm_module.specs.declared.renaming.Widths.TheVariants as widths;
ghost use Rattle.wasm_normalise.specs.declared.options.Descriptions.TheVariants as descriptions;
ghost use Rattle.wasm_normalise.specs.declared.options.UnusedTypes.TheVariants as unused;
ghost use Rattle.wasmnorm.specs.Runs.{IsGiven, values_of};
ghost use Rattle.wasmnorm.specs.declared.options.Strictness.TheVariants as strictness;

use crate::texts::{ALLOW, KEEP_WIDTHS, PRUNE, STRICT, STRIP};
use command_line::{OptionValue, has_option};
use std::alloc::{AllocError, Global};
use wasm_normalise::{Descriptions, NormaliseOptions, UnusedTypes, Widths};

/// What is done with a module.
#[derive(Clone, Copy, Debug)]
pub struct RunOptions<'a> {
    /// How its types get their canonical form.
    pub normalise: NormaliseOptions,
    /// What is done if the new module can be wrong.
    pub strictness: Strictness,
    /// The names of further custom sections that refer to no type and to no place in the file.
    pub allowed: &'a [&'a [u8]],
}

/// What is done if the new module can be wrong: a custom section is of an unknown kind, so that it may
/// refer to types or to places in the file, or a section `name` can't be read.
#[derive(Clone, Copy, PartialEq, Eq, Debug)]
pub enum Strictness {
    /// It is written, with a warning on standard error.
    Lenient,
    /// It is rejected.
    Strict,
}

/// What these options ask for, with these names allowed.
pub fn run_options<'a>(options: &[String], allowed: &'a [&'a [u8]]) -> RunOptions<'a>
    ensures keep_widths { result.normalise.widths ≡ widths.Kept ↔
        IsGiven (codes "--keep-widths") options.now }
    ensures strip { result.normalise.descriptions ≡ descriptions.Stripped ↔
        IsGiven (codes "--strip") options.now }
    ensures prune { result.normalise.unused ≡ unused.Deleted ↔
        IsGiven (codes "--prune") options.now }
    ensures strict { result.strictness ≡ strictness.Strict ↔
        IsGiven (codes "--strict") options.now }
    ensures allowed { result.allowed.now ≡ allowed.now }
{
    RunOptions {
        normalise: NormaliseOptions {
            widths: widths(options),
            descriptions: descriptions(options),
            unused: unused_types(options),
        },
        strictness: how_strict(options),
        allowed,
    }
}

/// The names that `--allow` gives, in their order.
pub fn allowed_names(alloc: Global, values: &[OptionValue]) -> Result<Vec<&[u8]>, AllocError>
    ensures { IfOk result (λ names. map (λ name. name.now) names.items ≡
        values_of (codes "--allow") values.now) }
{
    let mut names = Vec::new(alloc);
    for given in values {
        if given.option.as_str() == ALLOW {
            names.push(given.value.as_bytes())?;
        }
    }
    Ok(names)
}

fn widths(options: &[String]) -> Widths
    ensures { result ≡ widths.Kept ↔ IsGiven (codes "--keep-widths") options.now }
{
    if has_option(options, KEEP_WIDTHS) {
        Widths::Kept
    } else {
        Widths::Shortest
    }
}

fn descriptions(options: &[String]) -> Descriptions
    ensures { result ≡ descriptions.Stripped ↔ IsGiven (codes "--strip") options.now }
{
    if has_option(options, STRIP) {
        Descriptions::Stripped
    } else {
        Descriptions::Kept
    }
}

fn unused_types(options: &[String]) -> UnusedTypes
    ensures { result ≡ unused.Deleted ↔ IsGiven (codes "--prune") options.now }
{
    if has_option(options, PRUNE) {
        UnusedTypes::Deleted
    } else {
        UnusedTypes::Kept
    }
}

fn how_strict(options: &[String]) -> Strictness
    ensures { result ≡ strictness.Strict ↔ IsGiven (codes "--strict") options.now }
{
    if has_option(options, STRICT) {
        Strictness::Strict
    } else {
        Strictness::Lenient
    }
}
