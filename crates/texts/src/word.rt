// Bytes put into a buffer as they are.
ghost use Rattle.std.specs.Prelude.{[], ◌∷◌, ◌+◌, ◌<◌, ◌≤◌, length};
ghost use Rattle.texts.specs.Putting.{PutMeets};

// Puts one byte. Requires its place.
pub fn put_byte(out: &mut [u8], at: usize, byte: u8) -> usize
    requires { at < length out.old }
    ensures { PutMeets at (byte ∷ []) out.old result out.new }
{
    out[at] = byte;
    at + 1
}

// Puts some bytes. Requires their places.
pub fn put_word(out: &mut [u8], at: usize, word: &[u8]) -> usize
    requires { at + length word.now ≤ length out.old }
    ensures { PutMeets at word.now out.old result out.new }
{
    let next = at + word.len();
    out[at..next].copy_from_slice(word);
    next
}
