// Parts of the saved form (R9.2): numbers, registers, bytes. A part is lent, so its length says how many bytes there are.
#![tactic(auto)]

ghost use Rattle.std.specs.Prelude.{◌≡◌, ◌*◌, ◌/◌, ◌%◌, ◌^◌, ◌≤◌, ◌<◌, length};
ghost use Rattle.lists.specs.Lists.{table};
ghost use Rattle.forms.specs.Numbers.{big, value_from, number_in, registers};
ghost use Rattle.forms.specs.File.{zeros};

pub mod file;
mod packing;

// The byte of x that has `below` bytes below it.
fn byte_of(x: u64, below: usize) -> u8
    requires { below < 8 }
    ensures { result ≡ x / 256 ^ below % 256 }
{
    ((x >> (8 * below)) % 256) as u8
}

// A number over the whole of a part, the highest byte first.
pub fn put_number(part: &mut [u8], x: u64)
    requires { length part.old ≤ 8 }
    ensures { part.new ≡ big (length part.old) x }
{
    let n = part.len();
    for (k, byte) in part.iter_mut().enumerate() {
        let below = n - 1 - k;
        *byte = byte_of(x, below);
    }
}

// The number that a part stands for.
pub fn read_number(part: &[u8]) -> u64
    requires { length part.now ≤ 8 }
    ensures { (result ≡ value_from 0 part.now) × (result < 256 ^ length part.now) }
{
    let mut x = 0;
    for byte in part {
        x = x * 256 + u64::from(*byte);
    }
    x
}

// Registers of 8 bytes each over a part, which is lent by places: std does not say what it holds after `as_chunks_mut` or `chunks_mut`.
pub fn put_registers(part: &mut [u8], values: &[u64])
    requires { length part.old ≡ 8 * length values.now }
    ensures { part.new ≡ registers (length values.now) values.now }
{
    for (k, value) in values.iter().enumerate() {
        let at = 8 * k;
        let end = 8 * (k + 1);
        put_number(&mut part[at..end], *value);
    }
}

// The registers that stand in a part.
pub fn read_registers(part: &[u8], values: &mut [u64])
    requires { length part.now ≡ 8 * length values.old }
    ensures { values.new ≡ table (length values.old) (λ k. number_in part.now (8 * k) 8) }
{
    let (numbers, _) = part.as_chunks::<8>();
    for (k, value) in values.iter_mut().enumerate() {
        *value = read_number(&numbers[k]);
    }
}

// Bytes over a part of the same length. One by one: of slices that may overlap, as far as the back end sees, `copy_from_slice` makes a call
// of memmove, and the archive would need it from outside.
pub(crate) fn copy(part: &mut [u8], bytes: &[u8])
    requires { length part.old ≡ length bytes.now }
    ensures { part.new ≡ bytes.now }
{
    for (k, byte) in bytes.iter().enumerate() {
        part[k] = *byte;
    }
}

// Zeros over a part.
pub(crate) fn clear(part: &mut [u8])
    ensures { part.new ≡ zeros (length part.old) }
{
    part.fill(0);
}

// A register's 64 bytes over a part, through an array of its own: the back end does not see that the two do not overlap, and goes by single
// bytes or asks first.
pub fn copy_register(part: &mut [u8], register: &[u8])
    requires { (length part.old ≡ 64) × (length register.now ≡ 64) }
    ensures { part.new ≡ register.now }
{
    let mut held = [0u8; 64];
    held.copy_from_slice(register);
    part.copy_from_slice(&held);
}
