// Texts, and numbers as text (R10.4). Each function puts its text into a lent buffer at a place, and returns the place behind it.
// No `Display`: `fmt::Write` promises a text on Ok alone, where `Wrote` (R10.6, R14.10) promises it always. Buffer and place stay two
// parameters: each clause would name both parts of a struct, old and new.
#![tactic(auto)]

ghost use Rattle.std.specs.Prelude.{◌≡◌, ◌+◌, ◌≤◌, ◌<◌, length};
ghost use Rattle.text.specs.Text.{decimal, hex_digit, hex8};
ghost use Rattle.text.specs.Put.{Put};

pub fn put_text(out: &mut [u8], at: usize, text: &[u8]) -> usize
    requires { at + length text.now ≤ length out.old }
    ensures { Put text.now out.old at result out.new }
{
    let next = at + text.len();
    out[at..next].copy_from_slice(text);
    next
}

pub fn put_decimal(out: &mut [u8], at: usize, x: u64) -> usize
    requires { at + 20 ≤ length out.old }
    ensures { Put (decimal x) out.old at result out.new }
{
    if x < 10 {
        out[at] = 48 + x as u8;
        return at + 1;
    }
    let last = put_decimal(out, at, x / 10);
    out[last] = 48 + (x % 10) as u8;
    last + 1
}

// `char::from_digit` gives an Option and a char: no plainer.
fn hex_digit(x: u32) -> u8
    requires { x < 16 }
    ensures { result ≡ hex_digit x }
{
    if x < 10 { 48 + x as u8 } else { 87 + x as u8 }
}

pub fn put_hex(out: &mut [u8], at: usize, x: u32) -> usize
    requires { at + 8 ≤ length out.old }
    ensures { Put (hex8 x) out.old at result out.new }
{
    let next = at + 8;
    for (k, digit) in out[at..next].iter_mut().enumerate() {
        *digit = hex_digit((x >> (28 - 4 * k)) % 16);
    }
    next
}
