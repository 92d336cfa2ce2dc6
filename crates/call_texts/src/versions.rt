//! The versions that an answer names.
ghost use Rattle.std.specs.Prelude.{◌≡◌, ◌≤◌, ◌+◌, ◌^◌, ◌<◌, ◌==◌, ◌∷◌, [], length, slice_set, IfSome, MatchOption};
ghost use Rattle.std.specs.List.{position, slice_split};
ghost use Rattle.call_texts.specs.Versions.{filled, version_at, versions_in};

/// Where an answer names a version: at which bytes the name of its package and the version begin, and how many bytes
/// each of them has.
#[repr(C)]
#[derive(Clone, Copy, Debug)]
pub struct Version {
    pub name: usize,
    pub name_length: usize,
    pub version: usize,
    pub version_length: usize,
}

/// How many versions an answer names. They are put into the buffer in their order, as many as it has room for.
pub fn versions_in(answer: &[u8], buffer: &mut [Version]) -> usize
    ensures count { result ≡ length (versions_in answer.now) }
    ensures filled { buffer.new ≡ filled 0 (versions_in answer.now) buffer.old }
{
    let Some((first, below)) = split_first(answer, b'\n') else {
        return 0;
    };
    let mut at = first.len() + 1;
    let mut rest = below;
    let mut count = 0;
    while let Some((line, others)) = split_first(rest, b'\n') {
        let Some(version) = version_at(at, line) else {
            return count;
        };
        put(buffer, count, version);
        count += 1;
        at += line.len() + 1;
        rest = others;
    }
    count
}

/// The version of a line that begins at this byte, if the line is a name, a blank and a version.
fn version_at(at: usize, line: &[u8]) -> Option<Version>
    requires { at + length line.now < 2 ^ 64 }
    ensures { result ≡ version_at at (slice_split (λ b. b == 32) line.now) }
{
    let Some((name, version)) = split_first(line, b' ') else {
        return None;
    };
    match split_first(version, b' ') {
        Some(_) => None,
        None => Some(Version {
            name: at,
            name_length: name.len(),
            version: at + name.len() + 1,
            version_length: version.len(),
        }),
    }
}

/// Puts a version at a place of a buffer, if it has that place.
fn put(buffer: &mut [Version], place: usize, version: Version)
    ensures { buffer.new ≡ slice_set buffer.old place version }
{
    if place < buffer.len() {
        buffer[place] = version;
    }
}

/// What is before the first `byte` of a text, and what is behind it.
fn split_first(text: &[u8], byte: u8) -> Option<(&[u8], &[u8])>
    ensures parts { MatchOption result (slice_split (λ b. b == byte) text.now ≡ text.now ∷ [])
        (λ r. slice_split (λ b. b == byte) text.now ≡ r.0.now ∷ slice_split (λ b. b == byte) r.1.now) }
    ensures shorter { IfSome result (λ r. length r.0.now + 1 + length r.1.now ≡ length text.now) }
{
    let Some(end) = position(text, byte) else {
        return None;
    };
    Some((&text[..end], &text[end + 1..]))
}

/// Where a text has its first `byte`.
fn position(text: &[u8], byte: u8) -> Option<usize>
    ensures is { result ≡ position (λ b. b == byte) text.now }
    ensures within { IfSome result (λ i. i < length text.now) }
{
    text.iter().position(|other| *other == byte)
}
