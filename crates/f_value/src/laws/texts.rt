ghost use Rattle.std.specs.Prelude.{◌≡◌};
ghost use Rattle.std.specs.Ordering.{ordering_reverse};
ghost use Rattle.std.specs.Cmp.{IsTotalOrder};
ghost use Rattle.std.specs.declared.cmp.Ordering.TheVariants.{Equal};
ghost use Rattle.f_value.specs.Texts.{padded_order};
ghost use Rattle.f_value.specs.Laws.{ComparesPadded, IsOneWay, GoesOn, IsBothWays, IsEqualBothWays, IsLessOneWay};

/// Laws: texts are equal to themselves, and the order of two texts turned round is the other order.
pub fn texts_are_ordered(s: &[u8], t: &[u8])
    ensures itself { padded_order s.now s.now ≡ Equal }
    ensures either_way { padded_order t.now s.now ≡ ordering_reverse (padded_order s.now t.now) }
{}

/// A law: texts are compared by their bytes, as if blanks stood behind them (10.1.5.5.1).
pub fn texts_are_compared_with_blanks_behind()
    ensures { ComparesPadded }
{}

/// Laws: comparison of texts is a total order up to trailing blanks. Of two texts one is `<=` the other, `<=` goes on from text to
/// text, both ways it holds exactly where only trailing blanks differ, `==` says just that, and `<` is where `>=` doesn't hold.
pub fn texts_are_in_order()
    ensures total { IsTotalOrder padded_order }
    ensures one_way { IsOneWay }
    ensures goes_on { GoesOn }
    ensures both_ways { IsBothWays }
    ensures equal { IsEqualBothWays }
    ensures less { IsLessOneWay }
{}
