// The vector file in a saved form: whole (R9.2) or packed (R9.8). A trait with an impl for either is no plainer than these tests of one flag:
// the callers read the version, and so the flag, from bytes. Vector files are lent as slices: docs/GUARANTEES.md names these functions, and an
// array would ask more of who calls them.
#![tactic(auto, unfolding(forms::specs::File::file_form))]

ghost use Rattle.std.specs.Prelude.{◌≡◌, ◌≤◌, length, is_some};
ghost use Rattle.forms.specs.File.{word_for, size_for, file_form};

use crate::copy;
use crate::packing::{has_empty, put_packed, read_packed, size_by, size_in, word_of};

// The word of a file, which is found once and then goes with it; a whole file has none.
pub fn file_word(packed: bool, vectors: &[u8]) -> Option<u32>
    requires { length vectors.now ≡ 2048 }
    ensures { result ≡ word_for packed vectors.now }
{
    if packed { Some(word_of(vectors)) } else { None }
}

// How many bytes a file takes, by its word.
pub fn file_size_by(word: Option<u32>) -> usize
    ensures { (result ≡ size_for word) × (result ≤ 2052) }
{
    match word {
        Some(word) => size_by(word),
        None => 2048,
    }
}

// A file over a part, by its word.
pub fn put_file(part: &mut [u8], word: Option<u32>, vectors: &[u8])
    requires { (length vectors.now ≡ 2048)
        × (word ≡ word_for (is_some word) vectors.now)
        × (length part.old ≡ length ((file_form (is_some word)).put vectors.now)) }
    ensures { part.new ≡ (file_form (is_some word)).put vectors.now }
{
    match word {
        Some(word) => put_packed(part, word, vectors),
        None => copy(part, vectors),
    }
}

// How many bytes a part should have.
pub fn file_size_in(packed: bool, part: &[u8]) -> usize
    requires { 4 ≤ length part.now }
    ensures { (result ≡ (file_form packed).size part.now) × (result ≤ 2052) }
{
    if packed { size_in(part) } else { 2048 }
}

// A part is wrong although it has its size.
pub fn is_wrong(packed: bool, part: &[u8]) -> bool
    requires { length part.now ≡ (file_form packed).size part.now }
    ensures { result ≡ (file_form packed).wrong part.now }
{
    packed && has_empty(part)
}

// The file that stands in a part.
pub fn read_file(packed: bool, part: &[u8], vectors: &mut [u8])
    requires { (length vectors.old ≡ 2048) × (length part.now ≡ (file_form packed).size part.now) }
    ensures { vectors.new ≡ (file_form packed).get part.now }
{
    if packed {
        read_packed(part, vectors)
    } else {
        copy(vectors, part)
    }
}
