// The lines of a script, one after the other.
ghost use Rattle.std.specs.Prelude.{◌≡◌, ◌+◌, ◌<◌, ◌∷◌, drop, length};
ghost use Rattle.lpc_model.specs.Script.{script_lines};

/// The first line of a script that isn't empty, and what comes after it.
///
/// A line ends at a byte 10, which is no part of it, or at the end of the script.
pub fn next_line(bytes: &[u8]) -> (&[u8], &[u8])
    requires { 0 < length bytes.now }
    ensures lines { script_lines bytes.now ≡ result.0.now ∷ script_lines result.1.now }
    ensures rest { result.1.now ≡ drop (length result.0.now + 1) bytes.now }
    ensures shorter { length result.1.now < length bytes.now }
{
    for i in 0..bytes.len() {
        if bytes[i] == b'\n' {
            return (&bytes[..i], &bytes[i + 1..]);
        }
    }
    (bytes, &[])
}
