//! The words of a refusal.
ghost use Rattle.std.specs.Prelude.{◌≡◌};
ghost use Rattle.example_answers.specs.Refusals.{words_of};

use resolvo_ids::StoreError;

/// What a refusal is called. Its `Display` says the same, but nothing is proved of that.
pub fn words_of(refused: StoreError) -> &'static str
    ensures { result.now ≡ words_of refused }
{
    match refused {
        StoreError::OutOfMemory => "out of memory",
        StoreError::IdSpace => "no id is left",
        StoreError::UnknownId => "unknown id",
        StoreError::LevelOutOfRange => "level out of range",
        StoreError::NotLoaded => "requirement not loaded",
        StoreError::NegatesParent => "the condition negates the parent",
        StoreError::BadWatch => "the watch can't be moved so",
        StoreError::BadLearnt => "not a learnt clause",
        StoreError::EmptyTrail => "the trail is empty",
        StoreError::BadFraction => "not a fraction of at most one",
        StoreError::TooManyClauses => "too many clauses",
        StoreError::Cancelled => "cancelled",
    }
}
