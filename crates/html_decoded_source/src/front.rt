//! The front of what a source has.
ghost use Rattle.std.specs.Prelude.{◌≡◌, ◌<◌, ◌≤◌, length, IfOk};
ghost use Rattle.html_decoded_source.specs.Sources.{IsFront};

use devices::{DeviceFault, Source};
use std::alloc::{AllocError, Global};

/// How many bytes are asked for a read of the other source.
const PIECE: usize = 4096;

/// Room for a read.
pub(crate) fn room(alloc: Global) -> Result<Vec<u8>, AllocError>
    ensures { IfOk result (λ made. length made.items ≡ 4096) }
{
    let mut buffer = Vec::new(alloc);
    buffer.resize(PIECE, 0)?;
    Ok(buffer)
}

/// Reads into a buffer until it has 1,024 bytes of a source, or all that the source has, and says how many it has.
fn read_front<R: Source>(source: &mut R, buffer: &mut [u8]) -> Result<usize, DeviceFault>
    requires { 1024 < length buffer.old }
    ensures ok { IfOk result (IsFront (R.left source.old) (R.left source.new) buffer.new) }
    ensures references { R.references source.new ≡ R.references source.old }
{
    let mut held = 0;
    while held < 1024 {
        let count = source.read_some(&mut buffer[held..])?;
        if count == 0 {
            break;
        }
        held += count;
    }
    Ok(held)
}

/// Room for a read, in which so many bytes of a source were read, 1,024 at least or all that it has.
pub(crate) fn front_of<R: Source>(
    alloc: Global,
    source: &mut R,
) -> Result<(Vec<u8>, usize), DeviceFault>
    ensures room { IfOk result (λ front. length front.0.items ≡ 4096) }
    ensures front { IfOk result (λ front. IsFront (R.left source.old) (R.left source.new) front.0.items front.1) }
    ensures references { R.references source.new ≡ R.references source.old }
{
    let Ok(made) = room(alloc) else {
        return Err(DeviceFault::Device);
    };
    let mut buffer = made;
    let held = read_front(source, &mut buffer)?;
    Ok((buffer, held))
}
