//! Which requirements of a request can't all stay.
ghost use Rattle.std.specs.Prelude.{◌≡◌, OnOk};
ghost use Rattle.resolvo_pool.specs.Texts.{IsAppended};
ghost use Rattle.example_answers.specs.Explained.{text_of_conflict};

use corrections::{named_in, write_proposals};
use picking::Reason;
use resolvo_ids::StoreError;
use resolvo_pool::{DependencyProvider, Interner};

/// Appends which requirements of the request can't all stay, if the reasons name several.
pub(crate) fn write_conflict<D: DependencyProvider>(
    provider: &D,
    reasons: &[Reason<D::NameId, D::SolvableId>],
    text: &mut String<D::Alloc>,
) -> Result<(), StoreError>
    ensures { OnOk result (IsAppended text.old text.new
        (text_of_conflict (D.universe provider.now) (D.texts provider.now) reasons.now)) }
{
    let named = named_in(*text.allocator(), reasons)?;
    if named.len() > 1 {
        write_proposals(provider, reasons, text)
    } else {
        Ok(())
    }
}
