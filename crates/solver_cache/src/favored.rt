//! Puts the favored one of solvables first.
ghost use Rattle.std.specs.Prelude.{◌≡◌, ◌<◌, length, IfSome};
ghost use Rattle.std.specs.List.{position_from};
ghost use Rattle.providers.specs.Provider.{favored_first};

use typed_ids::SameId;

/// Moves the favored one, where it is among the solvables, from its first place to the front. The others keep their
/// order.
pub(crate) fn put_favored_first<S: SameId>(solvables: &mut [S], favored: Option<S>)
    ensures { solvables.new ≡ favored_first S.eq favored solvables.old }
{
    let Some(favored) = favored else {
        return;
    };
    if let Some(place) = place_of(solvables, favored) {
        solvables[..=place].rotate_right(1);
    }
}

/// The first place of a solvable.
fn place_of<S: SameId>(solvables: &[S], wanted: S) -> Option<usize>
    ensures place { result ≡ position_from (λ s. S.eq s wanted) 0 solvables.now }
    ensures within { IfSome result (λ place. place < length solvables.now) }
{
    solvables.iter().position(|solvable| *solvable == wanted)
}
