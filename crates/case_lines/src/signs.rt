ghost use Rattle.std.specs.Prelude.{◌<◌, ◌≤◌, ◌^◌, IfSome};

use std::alloc::Global;
use std::io;

/// How often a sign repeats a byte, at most.
const MOST_REPEATS: usize = 1 << 22;

/// Returns the bytes of a line with its signs `‹..›` expanded.
///
/// # Errors
///
/// `InvalidInput` where a `‹` begins no sign; `OutOfMemory`.
pub fn expand_signs(alloc: Global, line: &str) -> io::Result<Vec<u8>> {
    let mut bytes = Vec::new(alloc);
    let mut pieces = line.split('‹');
    if let Some(plain) = pieces.next() {
        bytes.extend_from_slice(plain.as_bytes())?;
    }
    for piece in pieces {
        let Some((sign, plain)) = piece.split_once('›') else {
            return Err(io::ErrorKind::InvalidInput.into());
        };
        push_sign(&mut bytes, sign)?;
        bytes.extend_from_slice(plain.as_bytes())?;
    }
    Ok(bytes)
}

fn push_sign(bytes: &mut Vec<u8>, sign: &str) -> io::Result<()> {
    for run in sign.split(' ') {
        let Some((byte, count)) = run_of(run) else {
            return Err(io::ErrorKind::InvalidInput.into());
        };
        bytes.resize(bytes.len() + count, byte)?;
    }
    Ok(())
}

/// The byte of `61` or `61×3000`, and how often it stands there.
fn run_of(run: &str) -> Option<(u8, usize)>
    ensures { IfSome result (λ run. run.1 ≤ 2 ^ 22) }
{
    let Some((digits, count)) = run.split_once('×') else {
        return Some((byte_of(run)?, 1));
    };
    let count = count.parse::<usize>().ok()?;
    if count > MOST_REPEATS {
        return None;
    }
    Some((byte_of(digits)?, count))
}

fn byte_of(digits: &str) -> Option<u8> {
    let [high, low] = digits.as_bytes() else {
        return None;
    };
    Some(nibble(*high)? * 16 + nibble(*low)?)
}

fn nibble(digit: u8) -> Option<u8>
    ensures { IfSome result (λ nibble. nibble < 16) }
{
    match digit {
        b'0'..=b'9' => Some(digit - b'0'),
        b'A'..=b'F' => Some(digit - b'A' + 10),
        _ => None,
    }
}
