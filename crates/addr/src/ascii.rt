//! Texts that are built of ASCII characters.
ghost use Rattle.std.specs.Prelude.{◌≡◌, ◌+◌, ◌<◌, ◌≤◌, [], ◌∷◌, ◌++◌, if◌then◌else◌};
ghost use Rattle.arrayvec.specs.ArrayString.{array_string_len};

use arrayvec::ArrayString;

/// Appends an ASCII character.
pub(crate) fn push_ascii<const N: usize>(text: &mut ArrayString<N>, byte: u8)
    requires ascii { byte < 128 }
    requires room { array_string_len text.old < N }
    ensures bytes { text.new.bytes ≡ text.old.bytes ++ byte ∷ [] }
    ensures len { array_string_len text.new ≡ array_string_len text.old + 1 }
{
    text.push(char::from(byte));
}

/// Appends an ASCII character if it is wanted. It is written in any case and then taken back:
/// quicker than a branch where a processor cannot guess which it is.
pub(crate) fn push_ascii_if<const N: usize>(text: &mut ArrayString<N>, byte: u8, is_wanted: bool)
    requires ascii { byte < 128 }
    requires room { array_string_len text.old < N }
    ensures bytes { text.new.bytes ≡ text.old.bytes ++ (if is_wanted then byte ∷ [] else []) }
    ensures len { array_string_len text.new ≤ array_string_len text.old + 1 }
{
    let before = text.len();
    push_ascii(text, byte);
    if !is_wanted {
        text.truncate(before);
    }
}
