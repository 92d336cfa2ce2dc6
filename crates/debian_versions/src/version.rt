//! Versions, and the parts that they have.
ghost use Rattle.std.specs.Char.{is_ascii_digit};
ghost use Rattle.std.specs.List.{list_all};
ghost use Rattle.std.specs.Prelude.{◌≡◌, drop, suc, take, true};
ghost use Rattle.std.specs.Str.Parse.{digits_value};
ghost use Rattle.debian_versions.specs.Order.{cmp_versions, epoch, upstream_len, without_epoch};

use crate::number::{compare_numbers, number_len};
use crate::part::compare_parts;
use std::cmp::Ordering;

/// Compares two versions. Whether they are well formed isn't tested: without digits and a colon at its beginning a
/// version has no epoch, and without a hyphen no revision.
pub fn compare(a: &[u8], b: &[u8]) -> Ordering
    ensures { result ≡ cmp_versions a.now b.now }
{
    let (epoch_a, rest_a) = split_epoch(a);
    let (epoch_b, rest_b) = split_epoch(b);
    let (upstream_a, revision_a) = split_revision(rest_a);
    let (upstream_b, revision_b) = split_revision(rest_b);
    compare_numbers(epoch_a, epoch_b)
        .then_with(|| compare_parts(upstream_a, upstream_b))
        .then_with(|| compare_parts(revision_a, revision_b))
}

/// The digits of the epoch, and what is behind its colon; no digits, and the version, if it has no epoch.
fn split_epoch(version: &[u8]) -> (&[u8], &[u8])
    ensures digits { list_all is_ascii_digit result.0.now ≡ true }
    ensures epoch { digits_value 10 result.0.now ≡ epoch version.now }
    ensures rest { result.1.now ≡ without_epoch version.now }
{
    let n = number_len(version);
    if n < version.len() && version[n] == b':' {
        (&version[..n], &version[n + 1..])
    } else {
        (&version[..0], version)
    }
}

/// What is before the last hyphen, and what is behind it; the text, and nothing, if it has no hyphen.
fn split_revision(text: &[u8]) -> (&[u8], &[u8])
    ensures upstream { result.0.now ≡ take (upstream_len text.now) text.now }
    ensures revision { result.1.now ≡ drop (suc (upstream_len text.now)) text.now }
{
    let mut n = text.len();
    'bytes: while n > 0 {
        n -= 1;
        if text[n] == b'-' {
            return (&text[..n], &text[n + 1..]);
        }
    }
    (text, &text[text.len()..])
}
