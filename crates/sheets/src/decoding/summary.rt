// What is printed of many bytes.
ghost use Rattle.std.specs.Prelude.{◌≤◌};

use crate::output;
use std::io;

// How many bytes hold the value.
fn how_many(bytes: &[u8], value: u8) -> usize {
    bytes.iter().filter(|byte| **byte == value).count()
}

// The digest with one byte more: the bytes are the digits of a number in base 31, modulo 65,521.
fn digest_more(digest: u32, byte: u8) -> u32
    requires { digest ≤ 65520 }
    ensures { result ≤ 65520 }
{
    (31 * digest + u32::from(byte)) % 65521
}

fn digest(bytes: &[u8]) -> u32 {
    let mut digest = 0;
    for byte in bytes {
        digest = digest_more(digest, *byte);
    }
    digest
}

// How many bytes are 0, 1, 2 and 9, and the digest.
pub(crate) fn summary(rt: &impl Print, bytes: &[u8]) -> io::Result<()> {
    output::count(rt, how_many(bytes, 0))?;
    output::text(rt, b" ")?;
    output::count(rt, how_many(bytes, 1))?;
    output::text(rt, b" ")?;
    output::count(rt, how_many(bytes, 2))?;
    output::text(rt, b" ")?;
    output::count(rt, how_many(bytes, 9))?;
    output::text(rt, b" digest ")?;
    output::count(rt, digest(bytes) as usize)
}
