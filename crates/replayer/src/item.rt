// An item of a recording (R14.2, R14.3).
ghost use Rattle.std.specs.Prelude.{◌≡◌, true, MatchOption};
ghost use Rattle.recording.specs.Item.{is_bad};
ghost use Rattle.replayer.specs.Work.{IsItem};

// The parts of an item that is well formed, and all bytes behind it.
#[derive(Clone, Copy)]
pub struct Item<'a> {
    pub number: u8,
    pub code: &'a [u8],
    pub memory: &'a [u8],
    pub control: u64,
    pub destination: &'a [u8; 64],
    pub rest: &'a [u8],
}

// The item that bytes begin with.
pub fn find(bytes: &[u8]) -> Option<Item<'_>>
    ensures { MatchOption result (is_bad bytes.now ≡ true) (λ item. IsItem bytes.now item) }
{
    let (head, rest) = bytes.split_first_chunk::<7>()?;
    let (code, rest) = rest.split_at_checked(usize::from(head[6]))?;
    let (count, rest) = rest.split_first_chunk::<2>()?;
    let (memory, rest) = rest.split_at_checked(parts::read_number(count) as usize)?;
    let (control, rest) = rest.split_first_chunk::<4>()?;
    let (destination, rest) = rest.split_first_chunk::<64>()?;
    if head[4] != 1 {
        return None;
    }
    if 15 < code.len() {
        return None;
    }
    if 4096 < memory.len() {
        return None;
    }
    if saved::size_at(bytes) != bytes.len() - rest.len() {
        return None;
    }
    Some(Item {
        number: head[5],
        code,
        memory,
        control: parts::read_number(control),
        destination,
        rest,
    })
}
