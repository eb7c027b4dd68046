// What the sums are in other words, and how they join: theorems, held by the check since a contract names them.
ghost use Rattle.frames.specs.Laws.{RoundsDown, GainJoins, MixJoins, FilterJoins, KeepJoins, KeepsEveryMth, LaterTapsOfZero, ReadsBack};

pub fn sums_are_lawful() -> u8
    ensures rounds_down { RoundsDown }
    ensures gain_joins { GainJoins }
    ensures mix_joins { MixJoins }
    ensures filter_joins { FilterJoins }
    ensures keep_joins { KeepJoins }
    ensures keeps_every_mth { KeepsEveryMth }
    ensures later_taps_of_zero { LaterTapsOfZero }
    ensures reads_back { ReadsBack }
{
    0
}
