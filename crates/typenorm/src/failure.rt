//! What ends a run without a normal form: its line on standard error and its exit status.
ghost use Rattle.std.specs.Prelude.{◌≡◌, ◌==◌, ◌<◌, ◌≤◌, ◌⊎◌, OnOk, IfSome};
ghost use Rattle.std.specs.List.{position};
ghost use Rattle.typenorm.specs.Runs.{GainsLine, IsLine};
ghost use Rattle.typenorm.specs.Steps.Failures.{status_of};

use crate::ReadError;
use std::io::{self, Cursor, ErrorKind, Write};
use thiserror::Error;
use walrus_text::TextError;

/// What ends a run without a normal form.
#[derive(Clone, Copy, PartialEq, Eq, Debug, Error)]
pub enum Failure {
    /// A line is not part of a section. It is counted from 1, and is one past the last where a
    /// `rec` has no `end`.
    #[error("line {0}: bad text")]
    BadText(u64),
    /// The section has no normal form.
    #[error("{0}")]
    Refused(ReadError),
    /// Memory was refused.
    #[error("out of memory")]
    Memory,
    /// A read or a write failed, reading did not come to an end, or the system has no random bytes.
    #[error("input or output failed")]
    Stream,
}

impl From<TextError> for Failure {
    ghost use Rattle.std.specs.Prelude.{◌≡◌};
    ghost use Rattle.typenorm.specs.Steps.Failures.{text_failure};

    ghost from_gives = { λ t e. e ≡ text_failure t };

    fn from(error: TextError) -> Failure {
        match error {
            TextError::BadText(bad) => Failure::BadText(bad.line),
            TextError::Memory => Failure::Memory,
            TextError::Stream => Failure::Stream,
        }
    }
}

impl From<ReadError> for Failure {
    ghost use Rattle.std.specs.Prelude.{◌≡◌};
    ghost use Rattle.typenorm.specs.declared.failure.Failure.TheVariants.{Refused};

    ghost from_gives = { λ r e. e ≡ Refused r };

    fn from(refused: ReadError) -> Failure {
        Failure::Refused(refused)
    }
}

/// More bytes than the line of any failure has.
const LINE_LIMIT: usize = 64;

/// Writes the line that explains the failure, and returns its exit status, which is 4 where that
/// write failed.
#[tactic(auto, using(crate::proofs::Failures::status_range))]
pub fn report<E: Write>(failure: &Failure, err: &mut E) -> u8
    ensures status { (result ≡ status_of failure.now) ⊎ (result ≡ 4) }
    ensures range { (0 < result) × (result ≤ 4) }
    ensures line { result < 4 → GainsLine (E.contents err.old) (E.contents err.new) }
{
    if write_line(failure, err).is_err() {
        return 4;
    }
    status(failure)
}

/// Writes the line by one write, so that nothing comes between its words.
fn write_line<E: Write>(failure: &Failure, err: &mut E) -> io::Result<()>
    ensures { OnOk result (GainsLine (E.contents err.old) (E.contents err.new)) }
{
    let mut room = [0u8; LINE_LIMIT];
    let mut text = Cursor::new(room.as_mut_slice());
    writeln!(text, "{failure}")?;
    match first_line(&room) {
        Some(line) => err.write_all(line),
        None => Err(io::Error::from(ErrorKind::WriteZero)),
    }
}

/// The bytes up to the first line feed, with it.
#[tactic(auto, using(crate::proofs::Lines::line_to_feed))]
fn first_line(bytes: &[u8]) -> Option<&[u8]>
    ensures { IfSome result (λ line. IsLine line.now) }
{
    let end = line_feed(bytes)?;
    Some(&bytes[..=end])
}

/// The index of the first line feed.
fn line_feed(bytes: &[u8]) -> Option<usize>
    ensures { result ≡ position (λ b. b == 10) bytes.now }
{
    bytes.iter().position(|byte| *byte == b'\n')
}

fn status(failure: &Failure) -> u8
    ensures { result ≡ status_of failure.now }
{
    match failure {
        Failure::BadText(_) => 1,
        Failure::Refused(ReadError::Memory) | Failure::Memory => 3,
        Failure::Refused(_) => 2,
        Failure::Stream => 4,
    }
}
