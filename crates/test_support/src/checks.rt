//! How tests compare what they have seen with what they want.
ghost use Rattle.std.specs.Prelude.{◌≡◌, ◌↔◌, true, IsOk, IsErr, IfOk, IfErr};

use std::fmt::Debug;
use std::test::Fail;
use typed_ids::StoreError;

/// What was seen is what was wanted; else the failure shows both.
pub fn is_same<T: Copy + PartialEq + Debug>(seen: T, wanted: T) -> Result<(), Fail>
    ensures { IsOk result ↔ (T.eq seen wanted ≡ true) }
{
    if seen == wanted {
        Ok(())
    } else {
        Err(Fail::new(format_args!("saw {seen:?}, and wanted {wanted:?}")))
    }
}

/// Nothing was refused, and what was seen is what was wanted.
pub fn sees<T: Copy + PartialEq + Debug>(seen: Result<T, StoreError>, wanted: T) -> Result<(), Fail>
    ensures ok { IfOk seen (λ value. IsOk result ↔ (T.eq value wanted ≡ true)) }
    ensures err { IfErr seen (λ e. IsErr result) }
{
    is_same(seen?, wanted)
}
