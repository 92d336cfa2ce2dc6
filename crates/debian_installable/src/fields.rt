//! Parts of fields of relations.
ghost use Rattle.std.specs.Prelude.{◌≡◌};
ghost use Rattle.debian_installable.specs.Fields.{is_blank};

/// Whether a text has nothing but white space.
pub fn is_blank(text: &[u8]) -> bool
    ensures { result ≡ is_blank text.now }
{
    text.iter().all(|byte| byte.is_ascii_whitespace())
}
