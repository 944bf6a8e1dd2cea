//! The laws of a selection and of rounding down, in the subject's words. No call of the program needs them.

ghost use Rattle.fish_psf.specs.BucketLaw.{BucketsRoundDown};
ghost use Rattle.fish_psf.specs.SelectLaw.{SelectsMatches};

/// A selection has each match once and nothing else, and its numbers fall from row to row.
///
/// Its contract is that law, for every log, evaluation, value, range and list of open numbers.
pub fn selects_matches()
    ensures { SelectsMatches }
{}

/// A bucket is the greatest multiple of its width that is not above the number.
///
/// Its contract is that law, for every number and every width of at least 1.
pub fn buckets_round_down()
    ensures { BucketsRoundDown }
{}
