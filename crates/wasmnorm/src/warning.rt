//! What can be wrong in the new module: a line on standard error, or the end of a strict run.
ghost use Rattle.std.specs.Prelude.{◌≡◌, ◌++◌, ℕ, IfErr, IfNone, IfOk, IfSome, List, None, OnOk};
ghost use Rattle.std.specs.Borrow.{Bor};
ghost use Rattle.std.specs.Io.KnownBytes.{Appends};
ghost use Rattle.wasm_normalise.specs.Hazards.{HasNoHazard, IsHazard};
ghost use Rattle.wasmnorm.specs.Runs.{Warns, warning_line};
ghost use Rattle.wasmnorm.specs.Steps.Failures.{Explains, IsOfStreams};
ghost use Rattle.wasmnorm.specs.Steps.Warnings.{IsFirstWarning, IsWarning, WarnsOf};
ghost use Rattle.wasmnorm.specs.declared.options.Strictness.TheVariants.{Strict};

use crate::custom_section::{write_unknown_kind, write_unread};
use crate::failure::Failure;
use crate::options::{RunOptions, Strictness};
use error_context::{Context, context_of};
use std::alloc::Global;
use std::fmt;
use std::fmt::Formatter;
use std::io::{self, Write};
use wasm_normalise::{Hazard, find_hazard};

/// What can be wrong in the new module, with what else is known of the input.
#[derive(Clone, Copy, PartialEq, Eq, Debug)]
pub struct Warning {
    /// What can be wrong.
    pub hazard: Hazard,
    /// The section that it names, if it names one.
    pub context: Context,
}

impl fmt::Display for Warning {
    fn fmt<W: fmt::Write>(&self, f: &mut Formatter<W>) -> fmt::Result {
        match self.hazard {
            Hazard::UnknownSection { offset } => write_unknown_kind(f, offset, &self.context),
            Hazard::UnreadNames { offset } => write_unread(f, offset, &self.context),
        }
    }
}

/// The warning that a module needs, or `None`. It fails if the module is to be rejected instead.
#[tactic(auto, using(crate::proofs::Warnings::warning_rejected))]
pub fn accepted_warning(
    alloc: Global,
    options: &RunOptions<'_>,
    bytes: &[u8],
) -> Result<Option<Warning>, Failure>
    ensures first { IfOk result (IsFirstWarning options.now.allowed.now bytes.now) }
    ensures none { options.now.strictness ≡ Strict → IfOk result (λ warning. warning ≡ None) }
    ensures known { OnOk result (options.now.strictness ≡ Strict →
        HasNoHazard options.now.allowed.now bytes.now) }
    ensures refused { IfErr result (Explains options.now bytes.now) }
{
    let warning = first_warning(alloc, bytes, options.allowed)?;
    match options.strictness {
        Strictness::Lenient => Ok(warning),
        Strictness::Strict => match warning {
            Some(warning) => Err(Failure::Rejected(warning)),
            None => Ok(None),
        },
    }
}

fn first_warning(alloc: Global, bytes: &[u8], allowed: &[&[u8]]) -> Result<Option<Warning>, Failure>
    ensures first { IfOk result (IsFirstWarning allowed.now bytes.now) }
    ensures refused { IfErr result IsOfStreams }
{
    match find_hazard(alloc, bytes, allowed) {
        Ok(Some(hazard)) => Ok(Some(warning_of(hazard, bytes))),
        Ok(None) => Ok(None),
        // The types were read before, so only memory was refused.
        Err(_) => Err(Failure::Memory),
    }
}

fn warning_of(hazard: Hazard, bytes: &[u8]) -> Warning
    ensures { (allowed : List (Bor (List ℕ))) → IsHazard allowed bytes.now hazard →
        IsWarning allowed bytes.now result }
{
    let context = match hazard {
        Hazard::UnknownSection { offset } | Hazard::UnreadNames { offset } => {
            context_of(bytes, offset)
        }
    };
    Warning { hazard, context }
}

/// Writes the line of a warning, if there is one.
pub fn warn_of<E: Write>(
    alloc: Global,
    warning: Option<Warning>,
    err: &mut E,
) -> Result<(), Failure>
    ensures warned { OnOk result (WarnsOf warning (E.contents err.old) (E.contents err.new)) }
    ensures failed { IfErr result IsOfStreams }
{
    match warning {
        Some(warning) => warn(alloc, warning, err),
        None => Ok(()),
    }
}

fn warn<E: Write>(alloc: Global, warning: Warning, err: &mut E) -> Result<(), Failure>
    ensures warned { OnOk result (Warns (E.contents err.old) (E.contents err.new)) }
    ensures failed { IfErr result IsOfStreams }
{
    // The text is made first, so that what is written is known.
    let text = warning.to_string(alloc)?;
    match write_warning(text.as_str(), err) {
        Ok(()) => Ok(()),
        Err(error) => Err(Failure::Output(error)),
    }
}

fn write_warning<E: Write>(text: &str, err: &mut E) -> io::Result<()>
    ensures { OnOk result (Appends (E.contents err.old) (E.contents err.new)
        (warning_line text.now)) }
{
    writeln!(err, "warning: {text}")
}
