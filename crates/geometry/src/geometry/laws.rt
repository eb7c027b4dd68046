// What holds of boundaries and pointers, whatever the numbers.
ghost use Rattle.std.specs.Prelude.{◌≡◌};
ghost use Rattle.geometry.specs.Boundary.{boundary_for};
ghost use Rattle.geometry.specs.Laws.{BoundaryRule, CapturedUnread, PlaybackFree, PlaybackRule, CaptureRule, PlaceByPointer, PointerMoves};

// The boundary of some buffers, and what the rule gives for every buffer.
pub fn boundary_laws()
    ensures of_eight { boundary_for 8 ≡ 1073741824 }
    ensures of_six { boundary_for 6 ≡ 1610612736 }
    ensures of_65535 { boundary_for 65535 ≡ 1073725440 }
    ensures rule { BoundaryRule }
{}

// Where a frame stands and how pointers move.
pub fn pointer_laws()
    ensures place { PlaceByPointer }
    ensures moves { PointerMoves }
{}

// What is available by the pointers is what is available by the counts.
pub fn avail_laws()
    ensures playback { PlaybackFree }
    ensures capture { CapturedUnread }
    ensures playback_sum { PlaybackRule }
    ensures capture_sum { CaptureRule }
{}
