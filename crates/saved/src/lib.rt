// Saved forms of the machine's state (R9.1 to R9.13).
#![tactic(auto)]

ghost use Rattle.std.specs.Prelude.{◌≡◌, ◌+◌, ◌^◌, ◌<◌, IfOk, length};
ghost use Rattle.lists.specs.Lists.{first_of};
ghost use Rattle.machine.specs.State.{state_of, held_state};
ghost use Rattle.forms.specs.Refusal.{answer_number};
ghost use Rattle.forms.specs.Version.{is_packed};
ghost use Rattle.forms.specs.File.{word_for, size_for};
ghost use Rattle.forms.specs.Form.{numbers, file_at, saved_form, form_size};
ghost use Rattle.forms.specs.Saved.{save, size_at, version_in, state_in, source_conditions, load, blank, own_load, move};
ghost use Rattle.forms.specs.Saved.{saved_size, moved_size, size_of};

use forms::{Refusal, Version};
use machine::Registers;
use parts::file;

// R9.1: where the vector file begins.
const FILE_AT: usize = 209;

// R9.5: the least number that is no control word.
const HIGH_CONTROL: u64 = 0x1_0000;

// ---- saving

// Control word, pointer, general registers and masks over the 204 bytes of a part.
fn put_numbers(part: &mut [u8], control: u32, pointer: u64, general: &[u64; 16], masks: &[u64; 8])
    requires { length part.old ≡ 204 }
    ensures { part.new ≡ numbers control pointer general.now masks.now }
{
    parts::put_number(&mut part[0..4], u64::from(control));
    parts::put_number(&mut part[4..12], pointer);
    parts::put_registers(&mut part[12..140], general);
    parts::put_registers(&mut part[140..204], masks);
}

// R9.9: how many bytes a form has, by its file's word.
fn form_size(word: Option<u32>) -> usize
    ensures { result ≡ file_at + size_for word }
{
    FILE_AT + file::file_size_by(word)
}

// A state's form over a target of its size, by its file's word. The state comes part by part, here and in `save` and `load`: as C lends it.
fn put_form(
    target: &mut [u8],
    version: Version,
    word: Option<u32>,
    vectors: &[u8; 2048],
    masks: &[u64; 8],
    general: &[u64; 16],
    control: u32,
    pointer: u64,
)
    requires { (word ≡ word_for (is_packed version) vectors.now)
        × (length target.old ≡ form_size version vectors.now) }
    ensures { target.new
        ≡ saved_form version (state_of vectors.now masks.now general.now control pointer) }
{
    let end = target.len();
    parts::put_number(&mut target[0..4], (end - 4) as u64);
    parts::put_number(&mut target[4..5], u64::from(u8::from(version)));
    put_numbers(&mut target[5..FILE_AT], control, pointer, general, masks);
    file::put_file(&mut target[FILE_AT..end], word, vectors);
}

// R9.4: the state into the target, in the version that has a number. Refused, the target stays as it was.
pub fn save(
    number: u32,
    vectors: &[u8],
    masks: &[u64; 8],
    general: &[u64; 16],
    control: u32,
    pointer: u64,
    target: &mut [u8],
) -> Result<(), Refusal>
    ensures { record { number = answer_number result; target = target.new }
        ≡ save number (state_of vectors.now masks.now general.now control pointer) target.old }
{
    let version = Version::try_from(number)?;
    let Some(vectors) = vectors.as_array::<2048>() else {
        return Err(Refusal::Size);
    };
    let word = file::file_word(version.is_packed(), vectors);
    if target.len() != form_size(word) {
        return Err(Refusal::Size);
    }
    if 0x1_0000 <= control {
        return Err(Refusal::HighControlBit);
    }
    put_form(
        target, version, word, vectors, masks, general, control, pointer,
    );
    Ok(())
}

// R9.9: how many bytes a form with this vector file has.
fn size_with(version: Version, vectors: &[u8; 2048]) -> usize
    ensures { result ≡ form_size version vectors.now }
{
    form_size(file::file_word(version.is_packed(), vectors))
}

// R9.12: how many bytes a save needs.
pub fn saved_size(number: u32, vectors: &[u8]) -> Option<usize>
    ensures { result ≡ size_of (saved_size number vectors.now) }
{
    let version = Version::try_from(number).ok()?;
    let vectors = vectors.as_array::<2048>()?;
    Some(size_with(version, vectors))
}

// ---- loading

// R9.13: where the form ends that these bytes begin with.
pub fn size_at(bytes: &[u8]) -> usize
    ensures { (result ≡ size_at bytes.now) × (result < 2 ^ 33) }
{
    let end = bytes.len().min(4);
    4 + parts::read_number(&bytes[..end]) as usize
}

// R9.5: the version of bytes that are to be read, or what is wrong first with them. Every form has a word or a whole file.
fn source_version(saved: &[u8]) -> Result<Version, Refusal>
    ensures number { answer_number result ≡ first_of (source_conditions saved.now) 0 }
    ensures version { IfOk result (λ version. version ≡ version_in saved.now) }
{
    if saved.len() < FILE_AT + 4 {
        return Err(Refusal::Form);
    }
    let version = Version::try_from(u32::from(saved[4]))?;
    let packed = version.is_packed();
    if saved.len() != FILE_AT + file::file_size_in(packed, &saved[FILE_AT..]) {
        return Err(Refusal::Form);
    }
    if size_at(saved) != saved.len() {
        return Err(Refusal::Form);
    }
    if file::is_wrong(packed, &saved[FILE_AT..]) {
        return Err(Refusal::Form);
    }
    if HIGH_CONTROL <= parts::read_number(&saved[5..9]) {
        return Err(Refusal::HighControlBit);
    }
    Ok(version)
}

// R9.5: the state that the bytes hold, into what is lent. Refused, the state stays as it was.
pub fn load(
    saved: &[u8],
    vectors: &mut [u8],
    masks: &mut [u64; 8],
    general: &mut [u64; 16],
    control: &mut u32,
    pointer: &mut u64,
) -> Result<(), Refusal>
    ensures { record {
      number = answer_number result;
      state = state_of vectors.new masks.new general.new control.new pointer.new;
    }
        ≡ load
        saved.now
        (state_of vectors.old masks.old general.old control.old pointer.old) }
{
    let Some(vectors) = vectors.as_mut_array::<2048>() else {
        return Err(Refusal::Size);
    };
    let version = source_version(saved)?;
    *control = parts::read_number(&saved[5..9]) as u32;
    *pointer = parts::read_number(&saved[9..17]);
    parts::read_registers(&saved[17..145], general);
    parts::read_registers(&saved[145..FILE_AT], masks);
    file::read_file(version.is_packed(), &saved[FILE_AT..], vectors);
    Ok(())
}

// A state of our own, all zero.
pub fn zeroed() -> Registers
    ensures { held_state result ≡ blank }
{
    Registers {
        vectors: [0; 2048],
        masks: [0; 8],
        general: [0; 16],
        control: 0,
        pointer: 0,
    }
}

// The state that the bytes hold, into one of our own. Refused, that stays as it was.
pub fn load_own(saved: &[u8], own: &mut Registers) -> Result<(), Refusal>
    ensures { record { number = answer_number result; state = held_state own.new }
        ≡ load saved.now (held_state own.old) }
{
    load(
        saved,
        &mut own.vectors,
        &mut own.masks,
        &mut own.general,
        &mut own.control,
        &mut own.pointer,
    )
}

// The state that the bytes hold, as one of our own.
pub fn loaded(saved: &[u8]) -> Result<Registers, Refusal>
    ensures { own_load result ≡ load saved.now blank }
{
    let mut own = zeroed();
    load_own(saved, &mut own)?;
    Ok(own)
}

// ---- moving

// R9.10: the state that the source holds into the target, in the version that has a number. Refused, the target stays as it was. The
// state is loaded in place: by way of `loaded`, tried, a move took 270 to 317 ns, since 2.3 KB go out of the Result.
pub fn move_form(number: u32, source: &[u8], target: &mut [u8]) -> Result<(), Refusal>
    ensures { record { number = answer_number result; target = target.new }
        ≡ move number source.now target.old }
{
    Version::try_from(number)?;
    let mut own = zeroed();
    load_own(source, &mut own)?;
    save(
        number,
        &own.vectors,
        &own.masks,
        &own.general,
        own.control,
        own.pointer,
        target,
    )
}

// R9.12: how many bytes a move needs. A whole file has one size, whatever stands in it.
pub fn moved_size(number: u32, source: &[u8]) -> Option<usize>
    ensures { result ≡ size_of (moved_size number source.now) }
{
    let to = Version::try_from(number).ok()?;
    let held = source_version(source).ok()?;
    if !to.is_packed() {
        return Some(form_size(None));
    }
    let mut vectors = [0; 2048];
    file::read_file(held.is_packed(), &source[FILE_AT..], &mut vectors);
    Some(size_with(to, &vectors))
}
