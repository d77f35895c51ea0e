//! The theory of equivalence of complete Mealy machines.
//! A function here does nothing: its contract is a theorem over every machine.
#![tactic(auto)]

ghost use Rattle.mealy.specs.BlocksAndWords.{ShareByWords, ExactLengthSuffices};
ghost use Rattle.mealy.specs.Numbering.{LeaderIsLowest, NumbersByShare, NumbersWithoutGaps, NumbersInOrder};
ghost use Rattle.mealy.specs.Settling.{RoundsRefine, SplitsGrow, SettledByCount, OneBlockFirst, BlocksBounded};
ghost use Rattle.mealy.specs.Settling.{SettlesInTime, SettlesByItsSize, SettledStays};
ghost use Rattle.mealy.specs.Settling.{SettledIsEquivalence, ShortWordsSuffice};
ghost use Rattle.mealy.specs.ShortestWords.{PartedIsToldWithin, PartedIsShortestLength, FirstWordIsShortest};
ghost use Rattle.mealy.specs.SmallestMachine.{BlocksMakeTheSmallest};
ghost use Rattle.mealy.specs.WorkedExample.{T6AsWorked, T6NeverParted};

/// Sharing a block of P j is being told apart by no word of at most j inputs: by none of just j comes to the same.
pub fn blocks_are_told_by_words()
    ensures shared { ShareByWords }
    ensures exact { ExactLengthSuffices }
{}

/// Blocks are numbered from 0 without gaps, in the order of their lowest states.
pub fn numbers_follow_lowest_states()
    ensures lowest { LeaderIsLowest }
    ensures equal { NumbersByShare }
    ensures gapless { NumbersWithoutGaps }
    ensures rising { NumbersInOrder }
{}

/// From one block on, each round refines the partition, and makes more blocks exactly where it changes it.
pub fn rounds_split_blocks()
    ensures first { OneBlockFirst }
    ensures refines { RoundsRefine }
    ensures grows { SplitsGrow }
    ensures counted { SettledByCount }
    ensures bounded { BlocksBounded }
{}

/// A machine of n states has settled by round n, and stays so.
pub fn settles_by_the_round_of_its_size()
    ensures splits { SettlesInTime }
    ensures settles { SettlesByItsSize }
    ensures stays { SettledStays }
{}

/// Sharing a block of a settled partition is equivalence, for words of every length.
pub fn settled_blocks_are_equivalence()
    ensures { SettledIsEquivalence }
{}

/// Two of n states that any word tells apart are told apart by one of at most n - 1 inputs.
pub fn short_words_suffice()
    ensures { ShortWordsSuffice }
{}

/// The round in which two states part is the length of their shortest telling words; the computed word is the first.
pub fn first_word_is_the_shortest()
    ensures parted { PartedIsToldWithin }
    ensures length { PartedIsShortestLength }
    ensures word { FirstWordIsShortest }
{}

/// The machine of the settled blocks is complete and equivalent, and no such machine has fewer states.
pub fn blocks_make_the_smallest_machine()
    ensures { BlocksMakeTheSmallest }
{}

/// A machine worked by hand has the partitions, the blocks and the words that the definitions give.
pub fn the_worked_example_holds()
    ensures computed { T6AsWorked }
    ensures equivalent { T6NeverParted }
{}
