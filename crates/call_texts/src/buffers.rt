//! Buffers of a caller's.
ghost use Rattle.std.specs.Prelude.{◌≡◌, ◌≤◌, ◌↔◌, true, false, length, IsTrue};
ghost use Rattle.call_texts.specs.Buffers.{written};

/// Writes a text to the start of a buffer, if that is long enough.
pub fn write(text: &[u8], buffer: &mut [u8]) -> bool
    ensures fits { IsTrue result ↔ (length text.now ≤ length buffer.old) }
    ensures written { result ≡ true → buffer.new ≡ written text.now buffer.old }
    ensures left { result ≡ false → buffer.new ≡ buffer.old }
{
    if text.len() > buffer.len() {
        return false;
    }
    buffer[..text.len()].copy_from_slice(text);
    true
}
