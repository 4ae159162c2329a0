// What a step shows of its destination (R14.5), and whether that is what an item expects.
ghost use Rattle.std.specs.Prelude.{◌≡◌, not, ◌++◌, ◌<◌, length, get_or};
ghost use Rattle.evex.proofs.Bounds.{DestinationIn};
ghost use Rattle.forms.specs.Numbers.{big};
ghost use Rattle.forms.specs.File.{register, zeros};
ghost use Rattle.recording.specs.Replay.{held, has_destination, shown, same_bytes};

use evex::Destination;

fn register_bytes(vectors: &[u8; 2048], n: usize) -> [u8; 64]
    requires { n < 32 }
    ensures { result ≡ register vectors.now n }
{
    let mut bytes = [0u8; 64];
    let at = n * 64;
    bytes.copy_from_slice(&vectors[at..at + 64]);
    bytes
}

fn mask_bytes(masks: &[u64; 8], n: usize) -> [u8; 64]
    requires { n < 8 }
    ensures { result ≡ big 8 (get_or masks.now n 0) ++ zeros 56 }
{
    let mut bytes = [0u8; 64];
    parts::put_number(&mut bytes[0..8], masks[n]);
    bytes
}

fn held_bytes(vectors: &[u8; 2048], masks: &[u64; 8], destination: Destination) -> [u8; 64]
    requires { DestinationIn destination }
    ensures { result ≡ held vectors.now masks.now destination }
{
    match destination {
        Destination::Vector(n) => register_bytes(vectors, n),
        Destination::Mask(n) => mask_bytes(masks, n),
    }
}

// By the answer's number, as a step hands it to C (R4.1).
fn has_destination(number: u32) -> bool
    ensures { result ≡ has_destination number }
{
    (number == 0) | (number == 7) | (number == 8)
}

pub fn shown_bytes(code: &[u8], number: u32, vectors: &[u8; 2048], masks: &[u64; 8]) -> [u8; 64]
    ensures { result ≡ shown code.now number vectors.now masks.now }
{
    if !has_destination(number) {
        return [0u8; 64];
    }
    let decoded = evex::decode(code);
    let Ok(i) = decoded else {
        return [0u8; 64];
    };
    let destination = i.destination;
    held_bytes(vectors, masks, destination)
}

// R14.6, by the library's test of arrays.
pub fn are_other(a: &[u8; 64], b: &[u8; 64]) -> bool
    ensures { result ≡ not (same_bytes a.now b.now) }
{
    a != b
}
