// The bytes of numbers at their places.
ghost use Rattle.std.specs.Prelude.{◌≡◌, ◌+◌, ◌≤◌, length};
ghost use Rattle.record_codec.specs.Numbers.{eight_bytes_at, four_bytes_at};

/// The four bytes at a place.
pub fn four_at(bytes: &[u8], at: usize) -> [u8; 4]
    requires { at + 4 ≤ length bytes.now }
    ensures { result ≡ four_bytes_at bytes.now at }
{
    [bytes[at], bytes[at + 1], bytes[at + 2], bytes[at + 3]]
}

/// The eight bytes at a place.
pub fn eight_at(bytes: &[u8], at: usize) -> [u8; 8]
    requires { at + 8 ≤ length bytes.now }
    ensures { result ≡ eight_bytes_at bytes.now at }
{
    let [a, b, c, d] = four_at(bytes, at);
    let [e, f, g, h] = four_at(bytes, at + 4);
    [a, b, c, d, e, f, g, h]
}
