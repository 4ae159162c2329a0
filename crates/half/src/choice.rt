// One of two values, computed both. Without a branch, so that a loop over lanes becomes vector instructions.
ghost use Rattle.std.specs.Prelude.{◌≡◌, cond};

pub fn either<T: Copy>(test: bool, yes: T, no: T) -> T
    ensures { result ≡ cond test yes no }
{
    if test { yes } else { no }
}
