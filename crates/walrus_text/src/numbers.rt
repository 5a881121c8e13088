//! Numbers below 2^32 as text.
ghost use Rattle.std.specs.Prelude.{◌≡◌, ◌∷◌, ◌<◌, ◌≤◌, drop, decimal, OnOk, OnErr, IsSome};
ghost use Rattle.std.specs.Io.KnownBytes.{Appends};

use crate::kept_error::{Failed, write_bytes};
use std::io;
use std::io::Write;

/// Room for a space and for the digits of each number below 2^32.
const ROOM: usize = 11;

/// Writes the number in decimal digits.
pub fn write_number<W: Write>(
    out: &mut W,
    number: u32,
    error: &mut Option<io::Error>,
) -> Result<(), Failed>
    ensures ok { OnOk result (Appends (W.contents out.old) (W.contents out.new) (decimal number)) }
    ensures err { OnErr result (IsSome error.new) }
{
    let mut bytes = [0u8; ROOM];
    let first = put_digits(number, &mut bytes);
    write_bytes(out, &bytes[first..], error)
}

/// Writes a space and the number in decimal digits.
pub fn write_spaced_number<W: Write>(
    out: &mut W,
    number: u32,
    error: &mut Option<io::Error>,
) -> Result<(), Failed>
    ensures ok { OnOk result (Appends (W.contents out.old) (W.contents out.new)
        (32 ∷ decimal number)) }
    ensures err { OnErr result (IsSome error.new) }
{
    let mut bytes = [0u8; ROOM];
    let first = put_digits(number, &mut bytes);
    bytes[first - 1] = b' ';
    write_bytes(out, &bytes[first - 1..], error)
}

/// Puts the decimal digits of the number at the end of the bytes, and returns the place of the
/// first.
fn put_digits(number: u32, bytes: &mut [u8; ROOM]) -> usize
    ensures some { 0 < result }
    ensures within { result ≤ 11 }
    ensures value { drop result bytes.new ≡ decimal number }
{
    let mut left = number;
    let mut at = ROOM;
    while left >= 10 {
        at -= 1;
        bytes[at] = b'0' + (left % 10) as u8;
        left /= 10;
    }
    at -= 1;
    bytes[at] = b'0' + left as u8;
    at
}
