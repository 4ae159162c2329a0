// Sets of lanes as 32 bits, lane j's being bit j.
ghost use Rattle.std.specs.Prelude.{◌≡◌, ◌+◌, ◌-◌, ◌*◌, ◌^◌, ◌<◌, ◌≤◌};
ghost use Rattle.evex.specs.Bits.{is_set};
ghost use Rattle.machine.specs.Memory.{is_on};

pub fn has(lanes: u32, j: usize) -> bool
    requires { j < 32 }
    ensures { result ≡ is_set lanes j }
{
    (lanes >> j) % 2 == 1
}

// One more than the highest lane of a set, 0 where it has none. Loops end there.
pub fn end_of(lanes: u32) -> usize
    ensures { (lanes < 2 ^ result) × (result ≤ 32) × (2 ^ result ≤ 2 * lanes + 1) }
{
    (32 - lanes.leading_zeros()) as usize
}

// The lanes below a number.
pub fn below(n: usize) -> u32
    requires { n ≤ 32 }
    ensures { result ≡ 2 ^ n - 1 }
{
    ((1u64 << n) - 1) as u32
}

// R5.1: the lanes that are on.
pub fn lanes_on(masks: &[u64; 8], mask: usize, elements: usize) -> u32
    requires { (mask < 8) × (elements ≤ 32) }
    ensures { is_set result ≡ is_on masks.now mask elements }
{
    if mask == 0 {
        return below(elements);
    }
    (masks[mask] & (below(elements) as u64)) as u32
}
