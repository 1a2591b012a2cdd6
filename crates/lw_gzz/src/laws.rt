ghost use Rattle.lw_gzz.specs.Recognition.{CallsHaveTheirWord, CallsStandForOnePair, WordsMayPartTheirPair};
ghost use Rattle.lw_gzz.specs.Together.{OtherCallsKeepPairsTogether, CallsBetweenLeaveTheLayers, GroupsKeepPairsTogether};
ghost use Rattle.lw_gzz.specs.Together.{FrameLeavesInnerRectangle, PairsAreOpened, BothAreClosedAlike, DrawingStaysInside};
ghost use Rattle.lw_gzz.specs.Apart.{PairsStayTogether, OpeningsAreNotRefused};

/// A law of the machine, which does nothing: the inner rectangle of bounds in order has those places of the screen at which the
/// pixels of an unscrolled window lie that its frame leaves.
pub fn frame_leaves_inner_rectangle()
    ensures { FrameLeavesInnerRectangle }
{}

/// A law of the machine, which does nothing: a call that arranges neither window of a pair by itself, puts no layer in front of
/// one and doesn't make the inner one active leaves the two paired: both live or both not, the inner one directly in front of the
/// outer one, over its inner rectangle. A call that makes the outer one active is such a call.
pub fn other_calls_keep_pairs_together()
    ensures { OtherCallsKeepPairsTogether }
{}

/// A law of the machine, which does nothing: within a group that holds all layers the calls of other tasks leave all of the desk
/// but registers.
pub fn calls_between_leave_the_layers()
    ensures { CallsBetweenLeaveTheLayers }
{}

/// A law of the machine, which does nothing: from version 2 on the calls of a word leave its own pair paired, and each pair of
/// other slots, also where some of them are refused. The own pair's slots differ, a new inner window is simple or smart, a box is
/// one that a pair may have, and the word doesn't put its pair directly in front of the outer window of the pair that stays.
pub fn groups_keep_pairs_together()
    ensures { GroupsKeepPairsTogether }
{}

/// A law of the machine, which does nothing: from version 2 on the calls that open a pair aren't refused where its two slots
/// differ, both may be opened, the inner window is simple or smart, and the box is one that a pair may have. They leave it open
/// and paired.
pub fn pairs_are_opened()
    ensures { PairsAreOpened }
{}

/// A law of the machine, which does nothing: a call on a layer, and a blit into it from another one, leaves the pen that the
/// screen has at each place outside the layer's bounds.
pub fn drawing_stays_inside()
    ensures { DrawingStaysInside }
{}

/// A law of the machine, which does nothing: both calls that close a pair answer alike, where its two slots differ and have what
/// those of an outer and an inner window have: both are live or neither is, and one task opened both.
pub fn both_are_closed_alike()
    ensures { BothAreClosedAlike }
{}

/// A law of the machine, which does nothing: in every run of a plan that keeps its pairs apart, in a legal order, both windows of
/// each pair are live or neither is, and the inner one stands directly in front of the outer one and over its inner rectangle, on
/// every desk that isn't inside a group that stands for a word.
pub fn pairs_stay_together()
    ensures { PairsStayTogether }
{}

/// A law of the machine, which does nothing: in such a run, where a group that opens a pair is next, none of its calls is
/// refused.
pub fn openings_are_not_refused()
    ensures { OpeningsAreNotRefused }
{}

/// A law of words, which does nothing: `word_of` is the word for which calls stand.
pub fn calls_have_their_word()
    ensures { CallsHaveTheirWord }
{}

/// A law of words, which does nothing: calls stand for one word at most, done with one pair.
pub fn calls_stand_for_one_pair()
    ensures { CallsStandForOnePair }
{}

/// A law of words, which does nothing: each call of a word is one that may part its pair.
pub fn words_may_part_their_pair()
    ensures { WordsMayPartTheirPair }
{}
