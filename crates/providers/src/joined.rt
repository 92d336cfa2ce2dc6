//! Texts that are put together.
ghost use Rattle.std.specs.Prelude.{◌≡◌, codes, string_bytes, OnOk, OnErr, IfErr};
ghost use Rattle.std.specs.List.{join_by};
ghost use Rattle.typed_ids.specs.declared.error.StoreError.TheVariants.{OutOfMemory};
ghost use Rattle.providers.specs.Texts.{IsAppended, IsSameText};

use std::alloc::Allocator;
use typed_ids::StoreError;

/// Appends a text. After a refusal `out` is as it was.
pub(crate) fn append<A: Allocator>(out: &mut String<A>, text: &str) -> Result<(), StoreError>
    ensures ok { OnOk result (IsAppended out.old out.new text.now) }
    ensures err { OnErr result (IsSameText out.old out.new) }
    ensures memory { IfErr result (λ e. e ≡ OutOfMemory) }
{
    Ok(out.push_str(text)?)
}

/// Appends the pieces, with ` | ` between them. After a refusal `out` is as it was.
pub(crate) fn append_joined<A: Allocator + Copy>(
    pieces: &[String<A>],
    out: &mut String<A>,
) -> Result<(), StoreError>
    ensures ok { OnOk result (IsAppended out.old out.new (join_by string_bytes (codes " | ") pieces.now)) }
    ensures err { OnErr result (IsSameText out.old out.new) }
    ensures memory { IfErr result (λ e. e ≡ OutOfMemory) }
{
    let text = pieces.join(*out.allocator(), " | ")?;
    append(out, &text)
}
