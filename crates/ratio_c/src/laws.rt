//! The laws of hashes, of keys, of bytes for sorting and of totals. Each function does nothing: its contract is the law.
ghost use Rattle.ratio_c.specs.Calls.{EqualValuesHaveOneHash};
ghost use Rattle.ratio_c.specs.HashMod61.{EqualValuesHaveOneMod61Hash, WholeNumbersHashAsInts};
ghost use Rattle.ratio_c.specs.JoinedAnswers.{DecimalsAnswerAlike, FloatsAnswerAlike, JoinedIsSum, MeansAnswerAlike, SignsAnswerAlike, SumsAnswerAlike};
ghost use Rattle.ratio_c.specs.Keys.{KeysKeepOrder, KeysTellFloats};
ghost use Rattle.ratio_c.specs.LowestHash.{DenominatorsHaveUnlikeHashes, EqualHaveOneHash, NumeratorsHaveUnlikeHashes};
ghost use Rattle.ratio_c.specs.Sortable.{BytesKeepOrder};
ghost use Rattle.ratio_c.specs.TotalLaws.{CallsFollow, EachIsBrought, EachIsCounted, MergeAddsEach, MeansReadAlike, MergeMoves, OutUndoesIn, PartsMerge, SignsAgree, SumsReadAlike, TotalsInAnyOrder, UnmergeUndoes};

/// Which fractions have the same hash in lowest terms.
pub fn lowest_hashes()
    ensures equal { EqualHaveOneHash }
    ensures numerators { NumeratorsHaveUnlikeHashes }
    ensures denominators { DenominatorsHaveUnlikeHashes }
{}

/// The hash by value is one for all fractions of a value.
pub fn hashes()
    ensures { EqualValuesHaveOneHash }
{}

/// A total has exactly what its fractions brought, in any order and in any calls. What goes in and out again leaves no trace.
pub fn totals()
    ensures brought { EachIsBrought }
    ensures counted { EachIsCounted }
    ensures order { TotalsInAnyOrder }
    ensures calls { CallsFollow }
    ensures undone { OutUndoesIn }
{}

/// A merge adds each numerator of the other total, and so the totals of parts make up the total of the whole.
pub fn merged_totals()
    ensures adds { MergeAddsEach }
    ensures undone { UnmergeUndoes }
    ensures parts { PartsMerge }
    ensures moves { MergeMoves }
{}

/// Totals with the same numerators have the same sum and the same sign, and with the same count the same mean.
pub fn total_reads()
    ensures sums { SumsReadAlike }
    ensures means { MeansReadAlike }
    ensures signs { SignsAgree }
{}

/// Where all slots of a total are joined in a room, the room holds their sum, and each read of it answers as the read of the total.
pub fn joined_totals()
    ensures holds { JoinedIsSum }
    ensures sums { SumsAnswerAlike }
    ensures means { MeansAnswerAlike }
    ensures signs { SignsAnswerAlike }
    ensures floats { FloatsAnswerAlike }
    ensures decimals { DecimalsAnswerAlike }
{}

/// If one value is at most another, so is its key. If the nearest float of one value is below that of another, so is its key.
pub fn keys()
    ensures order { KeysKeepOrder }
    ensures floats { KeysTellFloats }
{}

/// Bytes for sorting have the order of the values.
pub fn sortable()
    ensures { BytesKeepOrder }
{}

/// The hash of Python is one for all fractions of a value, and that of a whole number is the hash of an `int`.
pub fn hashes_mod61()
    ensures equal { EqualValuesHaveOneMod61Hash }
    ensures whole { WholeNumbersHashAsInts }
{}
