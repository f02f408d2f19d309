//! The laws of the ring: each function stands for the theorem that its contract states.
ghost use Rattle.ringlaws.specs.Laws.{SoundExactlyIfSpelled, OnlyOneList, EveryWordComesBack, TheListIsTheOne, ABadPlaceIsTheFirst, ThereAndBack, NewestHoldsTheLatest, NewestIsAPlace, LaidIsTheLatest, LaidOneMore, LaidAgainIsTheSame, AppendedSpellsOneMore, OnlyUsedPlacesMatter, EmptySpellsNothing};
ghost use Rattle.ringlaws.specs.Examples.{RingExamples};

/// Stepping back gives a list exactly if that list spells the ring.
pub fn sound_exactly_if_spelled()
    ensures { SoundExactlyIfSpelled }
{}

/// No ring is spelled by two lists.
pub fn only_one_list()
    ensures { OnlyOneList }
{}

/// The list, written from the head on, gives every word of the used places back.
pub fn every_word_comes_back()
    ensures { EveryWordComesBack }
{}

/// The list that stepping back gives spells the ring, no other does, and it gives every word back.
pub fn the_list_is_the_one()
    ensures { TheListIsTheOne }
{}

/// The place at which stepping back stops is the first bad TxnInfo that it meets.
pub fn a_bad_place_is_the_first()
    ensures { ABadPlaceIsTheFirst }
{}

/// As many steps forward as back lead to the same place.
pub fn there_and_back()
    ensures { ThereAndBack }
{}

/// The newest place of a record holds the unit that the spelled list has for it last.
pub fn newest_holds_the_latest()
    ensures { NewestHoldsTheLatest }
{}

/// A newest place is a place of the ring.
pub fn newest_is_a_place()
    ensures { NewestIsAPlace }
{}

/// Of transactions laid over homes, the newest wins.
pub fn laid_is_the_latest()
    ensures { LaidIsTheLatest }
{}

/// A ring with one more transaction in it spells the old list and that transaction.
pub fn appended_spells_one_more()
    ensures { AppendedSpellsOneMore }
{}

/// What a ring spells hangs on head, tail and the used places alone.
pub fn only_used_places_matter()
    ensures { OnlyUsedPlacesMatter }
{}

/// An empty ring spells the empty list.
pub fn empty_spells_nothing()
    ensures { EmptySpellsNothing }
{}

/// The worked examples of the layout hold.
pub fn ring_examples()
    ensures { RingExamples }
{}

/// One transaction more is laid over what the others made.
pub fn laid_one_more()
    ensures { LaidOneMore }
{}

/// Homes that already hold what the transactions give them make the same table.
pub fn laid_again_is_the_same()
    ensures { LaidAgainIsTheSame }
{}
