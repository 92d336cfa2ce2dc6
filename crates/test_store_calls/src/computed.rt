//! What the definitions compute: the checker evaluates them, so that a slip in a definition fails here.
ghost use Rattle.test_store_calls.specs.Examples.{Examples};
ghost use Rattle.test_store_calls.specs.Play.{PlayIsRun};

/// The worked examples hold of the abstract store.
pub fn examples()
    ensures { Examples }
{}

/// The replies that are computed for the examples are runs of the abstract store.
pub fn play_is_run<N, S>()
    ensures { PlayIsRun N S }
{}
