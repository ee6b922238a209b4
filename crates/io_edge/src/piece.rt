// The next bytes of those in memory.
ghost use Rattle.std.specs.Prelude.{◌≡◌, ◌≤◌, ◌+◌, ◌++◌, ◌^◌, ◌<◌, min, take, drop, length};

/// Puts the bytes from the place `at` on in front of the buffer, `most` of them at most, and says how many.
pub(crate) fn give(bytes: &[u8], at: usize, most: usize, buf: &mut [u8]) -> usize
    requires { at ≤ length bytes.now }
    ensures count { result ≡ min (min most (length buf.old)) (length (drop at bytes.now)) }
    ensures given { drop at bytes.now ≡ take result buf.new ++ drop (at + result) bytes.now }
    ensures fits { at + result < 2 ^ 64 }
    ensures room { length buf.new ≡ length buf.old }
{
    let left = bytes.len() - at;
    let count = most.min(buf.len()).min(left);
    buf[..count].copy_from_slice(&bytes[at..at + count]);
    count
}
