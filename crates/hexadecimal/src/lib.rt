// Octets as text in hexadecimal.
#![tactic(auto)]

ghost use Rattle.std.specs.Prelude.{◌≡◌, ◌<◌, IfOk, string_bytes};
ghost use Rattle.hexadecimal.specs.Digits.{digit, hexadecimal};

use std::alloc::{AllocError, Global};

// The digit of a number below 16.
fn digit_of(n: u8) -> char
    requires { n < 16 }
    ensures { result ≡ digit n }
{
    if n < 10 {
        char::from(b'0' + n)
    } else {
        char::from(b'a' + (n - 10))
    }
}

// Two digits for each octet, the high one first, with no letter a capital.
pub fn hex(heap: Global, octets: &[u8]) -> Result<String, AllocError>
    ensures { IfOk result (λ t. string_bytes t ≡ hexadecimal octets.now) }
{
    let mut text = String::new(heap);
    for octet in octets {
        text.push(digit_of(*octet / 16))?;
        text.push(digit_of(*octet % 16))?;
    }
    Ok(text)
}
