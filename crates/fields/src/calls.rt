// Calls as 32 lowercase hexadecimal digits.

ghost use Rattle.std.specs.Prelude.{◌≡◌, ◌≤◌, ◌<◌, length};
ghost use Rattle.std.proofs.lemmas.List.Edits.{sets};
ghost use Rattle.fields.specs.Calls.{nibble_of, call_of, digit_of, hex_of};

use table::{Call, Table};

// The value of a lowercase hexadecimal digit, 16 for an octet that is none.
// It is no Option: read_call, one digit at a time by `?`, takes 362 instructions, and by the two loops below 95.
fn nibble(x: u8) -> u8
    ensures { result ≡ nibble_of x }
{
    match x {
        b'0'..=b'9' => x - b'0',
        b'a'..=b'f' => x - b'a' + 10,
        _ => 16,
    }
}

// The call that a field says. A loop that ends early would take one digit at a time: so the first loop reads the values of all digits and
// keeps the largest, which tells whether each was one, and the second makes octets of them.
pub fn read_call(part: &[u8]) -> Option<Call>
    ensures { result ≡ call_of part.now }
{
    if part.len() != 32 {
        return None;
    }
    let mut values = [0u8; 32];
    let mut most: u8 = 0;
    for (k, digit) in part.iter().enumerate() {
        let v = nibble(*digit);
        values[k] = v;
        most = most.max(v);
    }
    if 15 < most {
        return None;
    }
    let mut call = [0u8; Table::CALL_OCTETS];
    for (i, octet) in call.iter_mut().enumerate() {
        *octet = values[i * 2] * 16 + values[i * 2 + 1];
    }
    Some(call)
}

// The digit of a value below 16.
fn digit(n: u8) -> u8
    requires { n < 16 }
    ensures { result ≡ digit_of n }
{
    if n < 10 { b'0' + n } else { b'a' - 10 + n }
}

// Writes the digits of a call at the front of the buffer, and gives how many there are.
pub(crate) fn put_call(out: &mut [u8], call: Call) -> usize
    requires { 32 ≤ length out.old }
    ensures { (result ≡ 32) × (out.new ≡ sets out.old 0 (hex_of call)) }
{
    for (i, octet) in call.iter().enumerate() {
        out[i * 2] = digit(*octet / 16);
        out[i * 2 + 1] = digit(*octet % 16);
    }
    32
}
