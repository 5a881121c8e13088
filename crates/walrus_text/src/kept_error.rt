//! Writes with a small result. An `io::Result` has about a hundred bytes, and each function that
//! passes one on copies it. So the error of the first write that fails is kept in one place.
//! Nothing is written after it.
ghost use Rattle.std.specs.Prelude.{◌≡◌, Err, OnOk, OnErr, IfSome, IfNone, IsSome, IsOk};
ghost use Rattle.std.specs.Io.KnownBytes.{Appends};

use std::io;
use std::io::Write;

/// A write failed, and its error is kept.
pub struct Failed;

/// Writes the bytes, and keeps the error of a write that fails.
#[inline(always)]
pub fn write_bytes<W: Write>(
    out: &mut W,
    bytes: &[u8],
    error: &mut Option<io::Error>,
) -> Result<(), Failed>
    ensures ok { OnOk result (Appends (W.contents out.old) (W.contents out.new) bytes.now) }
    ensures err { OnErr result (IsSome error.new) }
{
    match out.write_all(bytes) {
        Ok(()) => Ok(()),
        Err(reason) => {
            *error = Some(reason);
            Err(Failed)
        }
    }
}

/// The result of the writes: the error that was kept, if one was.
pub fn kept_error(error: Option<io::Error>) -> io::Result<()>
    ensures kept { IfSome error (λ reason. result ≡ Err reason) }
    ensures none { IfNone error (IsOk result) }
{
    match error {
        None => Ok(()),
        Some(reason) => Err(reason),
    }
}
