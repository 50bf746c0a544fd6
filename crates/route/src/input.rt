// Input of a limited length.
ghost use Rattle.std.specs.Prelude.{◌≡◌, ◌≤◌, ◌<◌, IfOk, IfSome, length, take, vec_len};
ghost use Rattle.std.specs.Io.KnownBytes.{Consumes, IsAtEnd};

use std::alloc::Global;
use std::io;
use std::io::Read;

// The longest layout that the program takes, in bytes.
pub const MOST: usize = 16_384;

// Fills the buffer from its start on, and answers how many bytes came: all that it has room for, or the rest of the source.
fn fill<R: Read>(source: &mut R, buffer: &mut [u8]) -> io::Result<usize>
    ensures room { IfOk result (λ n. n ≤ length buffer.new) }
    ensures bytes { IfOk result (λ n. Consumes (R.remaining source.old) (R.remaining source.new) (take n buffer.new)) }
    ensures end { IfOk result (λ n. n < length buffer.new → IsAtEnd (R.remaining source.new)) }
{
    let mut filled = 0;
    // Stays: a reader to the end asks for 512 bytes first, so a standard input that keeps messages apart would lose the rest of one, and it goes on after an
    // interrupted read (tried).
    while filled < buffer.len() {
        let got = source.read(&mut buffer[filled..])?;
        if got == 0 {
            break;
        }
        filled += got;
    }
    Ok(filled)
}

// The bytes of the source up to its end, but no more than `most`.
pub fn read_at_most<R: Read>(source: &mut R, heap: Global, most: usize) -> io::Result<Vec<u8>>
    ensures length { IfOk result (λ v. vec_len v ≤ most) }
    ensures bytes { IfOk result (λ v. IfSome (R.remaining source.old) (λ xs. v.items ≡ take most xs)) }
{
    let mut bytes = vec![in heap; 0u8; most]?;
    let filled = fill(source, bytes.as_mut_slice())?;
    bytes.truncate(filled);
    Ok(bytes)
}
