ghost use Rattle.run_sample.specs.Laws.{FirstEmptyIsUnique, SampleIsFit, SampleIsSome, SampleIsUnique};
ghost use Rattle.run_sample.specs.Laws.{FirstOfSeedOne};

/// At most one node is the first empty one that is met.
pub fn first_empty_is_unique()
    ensures { FirstEmptyIsUnique }
{}

/// A seed has at most one sample.
pub fn sample_is_unique()
    ensures { SampleIsUnique }
{}

/// Each seed has a sample.
pub fn sample_is_some()
    ensures { SampleIsSome }
{}

/// A sample has 150 amoebots, which make a connected shape with x and y of 9 to 118,
/// and its lists are of them.
pub fn sample_is_fit()
    ensures { SampleIsFit }
{}

/// The first two amoebots of seed one.
pub fn first_of_seed_one()
    ensures { FirstOfSeedOne }
{}
