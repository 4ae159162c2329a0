// The C entry points of include/ridgecrook.h and nothing else: each calls the proved function of its crate, and has its contract, without
// a precondition (R8.4).
#![tactic(auto)]

ghost use Rattle.std.specs.Prelude.{◌≡◌};
ghost use Rattle.numbers.specs.Numbers.{mode_of, yes, done, answered};
ghost use Rattle.half.specs.Operations.{half_add, half_subtract, half_multiply, half_divide, half_root, half_multiply_add};
ghost use Rattle.half.specs.Comparison.{half_minimum, half_maximum, half_compare};
ghost use Rattle.machine.specs.Step.{step};
ghost use Rattle.machine.specs.State.{state_of, stepped_of};
ghost use Rattle.forms.specs.Refusal.{answer_number};
ghost use Rattle.forms.specs.Saved.{save, load, move, saved_size, moved_size};
ghost use Rattle.recording.specs.Replay.{replay};
ghost use Rattle.recording.specs.Report.{reported};

use forms::Refusal;
use half::Mode;
use machine::Answer;
use numbers::Rounded;
use recording::Reported;

#[unsafe(no_mangle)]
pub extern "C" fn ridgecrook_add(a: u16, b: u16, mode: u32, underflow_unmasked: u32) -> Rounded
    ensures { result ≡ answered (mode_of mode) (λ (m : Mode). half_add m (yes underflow_unmasked) a b) }
{
    numbers::add(mode, underflow_unmasked, a, b)
}

#[unsafe(no_mangle)]
pub extern "C" fn ridgecrook_subtract(a: u16, b: u16, mode: u32, underflow_unmasked: u32) -> Rounded
    ensures { result ≡ answered (mode_of mode) (λ (m : Mode). half_subtract m (yes underflow_unmasked) a b) }
{
    numbers::subtract(mode, underflow_unmasked, a, b)
}

#[unsafe(no_mangle)]
pub extern "C" fn ridgecrook_multiply(a: u16, b: u16, mode: u32, underflow_unmasked: u32) -> Rounded
    ensures { result ≡ answered (mode_of mode) (λ (m : Mode). half_multiply m (yes underflow_unmasked) a b) }
{
    numbers::multiply(mode, underflow_unmasked, a, b)
}

#[unsafe(no_mangle)]
pub extern "C" fn ridgecrook_divide(a: u16, b: u16, mode: u32, underflow_unmasked: u32) -> Rounded
    ensures { result ≡ answered (mode_of mode) (λ (m : Mode). half_divide m (yes underflow_unmasked) a b) }
{
    numbers::divide(mode, underflow_unmasked, a, b)
}

#[unsafe(no_mangle)]
pub extern "C" fn ridgecrook_square_root(a: u16, mode: u32, underflow_unmasked: u32) -> Rounded
    ensures { result ≡ answered (mode_of mode) (λ (m : Mode). half_root m (yes underflow_unmasked) a) }
{
    numbers::square_root(mode, underflow_unmasked, a)
}

// a * b + c
#[unsafe(no_mangle)]
pub extern "C" fn ridgecrook_fused_multiply_add(
    a: u16,
    b: u16,
    c: u16,
    mode: u32,
    underflow_unmasked: u32,
) -> Rounded
    ensures { result ≡ answered (mode_of mode) (λ (m : Mode). half_multiply_add m (yes underflow_unmasked) a b c) }
{
    numbers::multiply_add(mode, underflow_unmasked, a, b, c)
}

#[unsafe(no_mangle)]
pub extern "C" fn ridgecrook_minimum(a: u16, b: u16) -> Rounded
    ensures { result ≡ done (half_minimum a b) }
{
    numbers::minimum(a, b)
}

#[unsafe(no_mangle)]
pub extern "C" fn ridgecrook_maximum(a: u16, b: u16) -> Rounded
    ensures { result ≡ done (half_maximum a b) }
{
    numbers::maximum(a, b)
}

#[unsafe(no_mangle)]
pub extern "C" fn ridgecrook_compare(a: u16, b: u16, immediate: u32) -> Rounded
    ensures { result ≡ done (half_compare immediate a b) }
{
    numbers::compare(immediate, a, b)
}

#[unsafe(no_mangle)]
pub extern "C" fn ridgecrook_step(
    vectors: &mut [u8],
    masks: &mut [u64; 8],
    general: &[u64; 16],
    control: &mut u32,
    pointer: &mut u64,
    code: &[u8],
    memory: &[u8],
) -> Answer
    ensures { stepped_of result vectors.new masks.new general.now control.new pointer.new
        ≡ step memory.now
        (state_of vectors.old masks.old general.now control.old pointer.old)
        code.now }
{
    step::step(vectors, masks, general, control, pointer, code, memory)
}

// The number of what a save, a load or a move answers: 0, or that of what it is refused for.
fn number(answer: Result<(), Refusal>) -> u32
    ensures { result ≡ answer_number answer }
{
    match answer {
        Ok(()) => 0,
        Err(refusal) => refusal.number(),
    }
}

// Version 1.
#[unsafe(no_mangle)]
pub extern "C" fn ridgecrook_save(
    vectors: &[u8],
    masks: &[u64; 8],
    general: &[u64; 16],
    control: u32,
    pointer: u64,
    target: &mut [u8],
) -> u32
    ensures { record { number = result; target = target.new }
        ≡ save 1 (state_of vectors.now masks.now general.now control pointer) target.old }
{
    let answer = saved::save(1, vectors, masks, general, control, pointer, target);
    number(answer)
}

#[unsafe(no_mangle)]
pub extern "C" fn ridgecrook_save_version(
    version: u32,
    vectors: &[u8],
    masks: &[u64; 8],
    general: &[u64; 16],
    control: u32,
    pointer: u64,
    target: &mut [u8],
) -> u32
    ensures { record { number = result; target = target.new }
        ≡ save version (state_of vectors.now masks.now general.now control pointer) target.old }
{
    let answer = saved::save(version, vectors, masks, general, control, pointer, target);
    number(answer)
}

#[unsafe(no_mangle)]
pub extern "C" fn ridgecrook_saved_size(version: u32, vectors: &[u8]) -> usize
    ensures { result ≡ saved_size version vectors.now }
{
    saved::saved_size(version, vectors).unwrap_or(0)
}

#[unsafe(no_mangle)]
pub extern "C" fn ridgecrook_load(
    saved: &[u8],
    vectors: &mut [u8],
    masks: &mut [u64; 8],
    general: &mut [u64; 16],
    control: &mut u32,
    pointer: &mut u64,
) -> u32
    ensures { record {
      number = result;
      state = state_of vectors.new masks.new general.new control.new pointer.new;
    }
        ≡ load saved.now
        (state_of vectors.old masks.old general.old control.old pointer.old) }
{
    let answer = saved::load(saved, vectors, masks, general, control, pointer);
    number(answer)
}

#[unsafe(no_mangle)]
pub extern "C" fn ridgecrook_move(version: u32, source: &[u8], target: &mut [u8]) -> u32
    ensures { record { number = result; target = target.new } ≡ move version source.now target.old }
{
    number(saved::move_form(version, source, target))
}

#[unsafe(no_mangle)]
pub extern "C" fn ridgecrook_moved_size(version: u32, source: &[u8]) -> usize
    ensures { result ≡ moved_size version source.now }
{
    saved::moved_size(version, source).unwrap_or(0)
}

#[unsafe(no_mangle)]
pub extern "C" fn ridgecrook_replay(recording: &[u8]) -> Reported
    ensures { result ≡ reported (replay recording.now) }
{
    replayer::reported(recording)
}
