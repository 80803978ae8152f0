// Numbers in octets, the highest octet first.
ghost use Rattle.std.specs.Prelude.{◌≡◌, ◌+◌, ◌≤◌, length};
ghost use Rattle.icp.specs.Numbers.{number2, number4};

// Two readers: one of any width, answering `[u8; N]`, would leave the conversion to each call, since no trait has the `from_be_bytes` of both.

// The number in two octets.
pub(crate) fn number2(octets: &[u8], at: usize) -> u16
    requires { at + 2 ≤ length octets.now }
    ensures { result ≡ number2 octets.now at }
{
    u16::from_be_bytes([octets[at], octets[at + 1]])
}

// The number in four octets.
pub(crate) fn number4(octets: &[u8], at: usize) -> u32
    requires { at + 4 ≤ length octets.now }
    ensures { result ≡ number4 octets.now at }
{
    u32::from_be_bytes([octets[at], octets[at + 1], octets[at + 2], octets[at + 3]])
}
