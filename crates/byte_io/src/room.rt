//! Texts that are gathered in room which was made before: nothing that is put there needs memory.
ghost use Rattle.std.specs.Prelude.{◌≡◌, ◌+◌, ◌≤◌, ◌++◌, length, decimal};
ghost use Rattle.arrayvec.specs.ArrayVec.{array_vec_len};
ghost use Rattle.octal.specs.Octal.{octal_text};

use arrayvec::ArrayVec;
use itoa::Buffer;
use octal::oct6;

/// Puts bytes at the end of a short text that has room for them.
pub fn push_bytes<const ROOM: usize>(text: &mut ArrayVec<u8, ROOM>, bytes: &[u8])
    requires room { array_vec_len text.old + length bytes.now ≤ ROOM }
    ensures items { text.new.items ≡ text.old.items ++ bytes.now }
    ensures length { array_vec_len text.new ≡ array_vec_len text.old + length bytes.now }
{
    text.try_extend_from_slice(bytes).unwrap();
}

/// Puts a number in decimal at the end of a short text that has room for 20 digits, the most that it has.
pub fn push_decimal<const ROOM: usize>(text: &mut ArrayVec<u8, ROOM>, number: u64)
    requires room { array_vec_len text.old + 20 ≤ ROOM }
    ensures items { text.new.items ≡ text.old.items ++ decimal number }
    ensures length { array_vec_len text.new ≤ array_vec_len text.old + 20 }
{
    push_bytes(text, Buffer::new().format(number).as_bytes());
}

/// Puts the six octal digits of a word at the end of a short text that has room for them.
pub fn push_octal<const ROOM: usize>(text: &mut ArrayVec<u8, ROOM>, word: u16)
    requires room { array_vec_len text.old + 6 ≤ ROOM }
    ensures items { text.new.items ≡ text.old.items ++ octal_text word }
    ensures length { array_vec_len text.new ≡ array_vec_len text.old + 6 }
{
    push_bytes(text, &oct6(word));
}
