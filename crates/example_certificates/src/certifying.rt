//! The certificate of what is requested, for any provider.
ghost use Rattle.std.specs.Prelude.{IfOk, IfSome, string_bytes};
ghost use Rattle.example_certificates.specs.Certificates.{IsCertificate, SaysClauses};

use crate::clausifier::Clausifier;
use crate::stated::stated_of;
use crate::writing::{LineWriter, with_first_line};
use picking::{Answer, Refutation, pick};
use resolvo_ids::StoreError;
use resolvo_pool::{ConditionalRequirement, DependencyProvider, Interner, ProviderFunctions};
use std::alloc::Allocator;

/// A certificate that what is requested in this line of a text has no solution, if a search in no more steps than these
/// answers that it has none.
pub fn certificate<D: DependencyProvider>(
    alloc: D::Alloc,
    provider: &D,
    requested: &[ConditionalRequirement],
    steps: u64,
    line: u64,
) -> Result<Option<String<D::Alloc>>, StoreError>
    ensures { IfOk result (λ found. IfSome found (λ text. IsCertificate D.Alloc
        (⟦<D as ProviderFunctions>⟧.functions provider.now) (D.texts provider.now) requested.now line
        (string_bytes text))) }
{
    match pick(alloc, provider, requested, steps)? {
        Answer::Unsolvable(refutation) => {
            let text = certify(alloc, provider, &refutation, line)?;
            Ok(Some(text))
        }
        _ => Ok(None),
    }
}

/// The certificate of a refutation.
fn certify<D: DependencyProvider>(
    alloc: D::Alloc,
    provider: &D,
    refutation: &Refutation<D::NameId, D::SolvableId, D::Alloc>,
    line: u64,
) -> Result<String<D::Alloc>, StoreError>
    ensures { IfOk result (λ text. SaysClauses (⟦<D as ProviderFunctions>⟧.functions provider.now)
        (D.texts provider.now) refutation.now line (string_bytes text)) }
{
    let clausifier = Clausifier { alloc, provider };
    let stated = stated_of(&clausifier, refutation)?;
    let writer = LineWriter {
        interner: provider,
        variables: &stated.variables,
    };
    let mut others = String::new(alloc);
    writer.write_stated(&stated.parts, &mut others)?;
    writer.write_learnt(&refutation.learnt, &mut others)?;
    with_first_line(alloc, line, &others)
}
