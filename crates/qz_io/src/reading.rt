//! Reading to the end of a reader, or to the end of a budget.
ghost use Rattle.std.specs.Prelude.{ℕ, ◌≡◌, ◌<◌, ◌≤◌, length, vec_len, IfOk, IfSome};
ghost use Rattle.std.specs.Io.{ReadsAtMost};
ghost use Rattle.std.specs.Io.KnownBytes.{ReadConsumes};
ghost use Rattle.qz_io.specs.Answers.{IsAbsent, IsTooLong, IfBytes};

use crate::answers::{FileFault, Got};
use std::alloc::{AllocError, Global};
use std::io;
use std::io::{ErrorKind, Read};

/// How many bytes are asked of a reader at a time.
const PIECE_LENGTH: usize = 64 * 1024;

/// Reads to the end, or finds that there are more than `max` bytes.
///
/// # Errors
///
/// `Failed` where a read failed, `Memory` where what was read finds no memory.
pub(crate) fn read_all<R: Read>(alloc: Global, reader: &mut R, max: u64) -> Result<Got, FileFault>
    ensures present { IfOk result (λ got. IsAbsent got → ⊥) }
    ensures within { IfOk result (λ got. IfBytes got (λ bytes. length bytes ≤ max)) }
    ensures bytes { IfOk result (λ got. IfBytes got
        (λ bytes. IfSome (R.remaining reader.old) (λ left. bytes ≡ left))) }
    ensures too_long { IfOk result (λ got. IsTooLong got →
        IfSome (R.remaining reader.old) (λ left. max < length left)) }
{
    let mut piece = make_piece(alloc, PIECE_LENGTH)?;
    read_by_pieces(alloc, reader, &mut piece, max)
}

/// Room for a piece of this length.
fn make_piece(alloc: Global, length: usize) -> Result<Vec<u8>, AllocError>
    ensures { IfOk result (λ piece. vec_len piece ≡ length) }
{
    vec![in alloc; 0; length]
}

/// Reads as `read_all` does, one piece at a time. Each turn reads at least one byte, so that there are
/// no more than `max + 1` turns.
fn read_by_pieces<R: Read>(
    alloc: Global,
    reader: &mut R,
    piece: &mut [u8],
    max: u64,
) -> Result<Got, FileFault>
    requires { 0 < length piece.old }
    ensures present { IfOk result (λ got. IsAbsent got → ⊥) }
    ensures within { IfOk result (λ got. IfBytes got (λ bytes. length bytes ≤ max)) }
    ensures bytes { IfOk result (λ got. IfBytes got
        (λ bytes. IfSome (R.remaining reader.old) (λ left. bytes ≡ left))) }
    ensures too_long { IfOk result (λ got. IsTooLong got →
        IfSome (R.remaining reader.old) (λ left. max < length left)) }
{
    let mut content = Vec::new(alloc);
    for _turn in 0..=max {
        let count = read_some(reader, piece)?;
        if count == 0 {
            return Ok(Got::Bytes(content));
        }
        if count as u64 > max - content.len() as u64 {
            return Ok(Got::TooLong);
        }
        content.extend_from_slice(&piece[..count])?;
    }
    Ok(Got::TooLong)
}

/// One read, tried again where a signal interrupts it.
fn read_some<R: Read>(reader: &mut R, piece: &mut [u8]) -> io::Result<usize>
    ensures bound { ReadsAtMost result piece.new }
    ensures bytes { ReadConsumes (R.remaining reader.old) (R.remaining reader.new) result piece.new }
{
    for _ in 0..u64::MAX {
        match reader.read(piece) {
            Ok(count) => return Ok(count),
            Err(error) => {
                if error.kind() != ErrorKind::Interrupted {
                    return Err(error);
                }
            }
        }
    }
    Err(io::Error::from(ErrorKind::Interrupted))
}
