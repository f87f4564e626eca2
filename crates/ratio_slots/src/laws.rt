//! The laws of totals. Each function does nothing: its contract is the law.
ghost use Rattle.ratio_slots.specs.Bounds.{BoundsAreNear, BoundsDecide, BoundsHold};
ghost use Rattle.ratio_slots.specs.Common.{CommonExists, CommonsAgree, ReadsAgree};
ghost use Rattle.ratio_slots.specs.Growth.{LengthsAreNear, LengthsComeByChance, LengthsLeaveRoom};
ghost use Rattle.ratio_slots.specs.JoinedLaws.{JoinedDecimals, JoinedFloats, JoinedMeans, JoinedSigns, JoinedSums};
ghost use Rattle.ratio_slots.specs.LowestSum.{MeanResultsAgree, SumResultsAgree, SumsAgree};
ghost use Rattle.ratio_slots.specs.RoomOrders.{OrdersAreSigns};
ghost use Rattle.ratio_slots.specs.RoomSums.{LeastMultiplesAgree, LeastMultiplesAssociate, RoomSumsAssociate, RoomSumsCommute, RoomSumsUndone};
ghost use Rattle.ratio_slots.specs.Steps.{StepsJoinAll, StepsLeavePairs};
ghost use Rattle.ratio_slots.specs.TotalLaws.{AdditionsCommute, DenominatorsDiffer, MergesAddEach, MergesUndone, NegatedNumerators, NegatedSums, TableMergesAssociate, TableMergesCommute, TakingOutUndoes};
ghost use Rattle.ratio_slots.specs.WideReads.{JoinedWideMeans, JoinedWideMultiples, JoinedWideSums, WideResultsAgree, WideSumsExtend};

/// The order of additions does not matter, and taking out undoes an addition.
pub fn additions()
    ensures commute { AdditionsCommute }
    ensures undo { TakingOutUndoes }
{}

/// The order and the grouping of merges do not matter. A merge is one addition after another.
pub fn merges()
    ensures commute { TableMergesCommute }
    ensures associate { TableMergesAssociate }
    ensures add_each { MergesAddEach }
{}

/// Taking out a total adds its negative, and undoes its merge.
pub fn takings_out()
    ensures undo { MergesUndone }
    ensures numerators { NegatedNumerators }
    ensures sum { NegatedSums }
{}

/// Each denominator has one slot.
pub fn tables()
    ensures { DenominatorsDiffer }
{}

/// Each table has one common denominator, and one sum over it.
pub fn reads()
    ensures common { CommonExists }
    ensures one_common { CommonsAgree }
    ensures one_read { ReadsAgree }
{}

/// The sum and the mean depend on the numerators and the count alone, and not on the slots or the order of additions.
/// `sum_of` and `mean_of` have one result.
pub fn sums()
    ensures value { SumsAgree }
    ensures one_result { SumResultsAgree }
    ensures one_mean { MeanResultsAgree }
{}

/// A read in steps comes to the sum over the common denominator, however many slots a step joins.
pub fn steps()
    ensures { StepsJoinAll }
{}

/// Where each quotient is cut to a whole number of parts of 1, the sum lies between the bounds. These are as far apart as
/// numbers were cut. If a rule rounds both to the same number, the decimal of the sum is that number.
pub fn bounds()
    ensures hold { BoundsHold }
    ensures near { BoundsAreNear }
    ensures decide { BoundsDecide }
{}

/// Where a room holds the join of a table, each read of the room is that of the table: `Joined::sum` returns what `sum_of` returns.
/// Where slots were joined in steps, no read of the room is refused, but for a decimal that has too little room.
pub fn joined_rooms()
    ensures accepted { StepsLeavePairs }
    ensures sum { JoinedSums }
    ensures mean { JoinedMeans }
    ensures sign { JoinedSigns }
    ensures float { JoinedFloats }
    ensures decimal { JoinedDecimals }
{}

/// The order and the grouping of sums in rooms do not matter, for their value and for whether it fits. Taking out undoes an addition, and
/// leaves what has the sign of the order.
pub fn room_sums()
    ensures commute { RoomSumsCommute }
    ensures associate { RoomSumsAssociate }
    ensures undo { RoomSumsUndone }
    ensures one_multiple { LeastMultiplesAgree }
    ensures one_of_three { LeastMultiplesAssociate }
    ensures signs { OrdersAreSigns }
{}

/// A fraction has one result of `Joined::wide_sum`, and where `Joined::sum` returns a fraction, it is the same one. Where a room holds the
/// join of a table, each wide read of the room is that of the table.
pub fn wide_reads()
    ensures one_result { WideResultsAgree }
    ensures extend { WideSumsExtend }
    ensures sum { JoinedWideSums }
    ensures mean { JoinedWideMeans }
    ensures multiple { JoinedWideMultiples }
{}

/// The next table of a total has enough room and little more, and nobody knows its length before.
pub fn lengths()
    ensures room { LengthsLeaveRoom }
    ensures near { LengthsAreNear }
    ensures chance { LengthsComeByChance }
{}
