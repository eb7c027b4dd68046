// The check of taps, and what a filter makes of one frame after another.
ghost use Rattle.std.specs.Prelude.{◌≡◌, ◌-◌, ◌≤◌, List, [], ◌∷◌, ◌++◌, length, take, drop, replicate, pos};
ghost use Rattle.frames.specs.declared.frame.Frame.{Frame as Moment};
ghost use Rattle.frames.specs.Filter.{filtered};
ghost use Rattle.frames.specs.Filters.{taps_of, makes_of, output_of, Pushed, CheckedTaps};
ghost use Rattle.frames.specs.Mirror.{recent};

use crate::filter::{DelayLine, Filter};
use crate::frame::Frame;
use crate::taps::TapSet;
use codes::refusal::Refusal;

impl TapSet {
    // The first `count` of these taps, of which there are 1 to 32.
    pub fn check(taps: [i16; 32], count: usize) -> Result<TapSet, Refusal>
        ensures { CheckedTaps taps count result }
    {
        if count == 0 || count > 32 {
            return Err(Refusal::Layer);
        }
        Ok(TapSet { taps, count })
    }
}

impl Default for DelayLine {
    ghost is_default = { λ line. (line.newest ≡ 0) × (line.left ≡ replicate 64 (pos 0)) × (line.right ≡ replicate 64 (pos 0)) };

    // Earlier inputs are 0.
    fn default() -> DelayLine {
        DelayLine {
            left: [0; 64],
            right: [0; 64],
            newest: 0,
        }
    }
}

impl DelayLine {
    // Writes an input in front of the newest, round the 32, at both of its places.
    fn push(&mut self, input: Frame)
        ensures left { recent self.new.newest self.new.left ≡ take 32 (input.left ∷ recent self.old.newest self.old.left) }
        ensures right { recent self.new.newest self.new.right ≡ take 32 (input.right ∷ recent self.old.newest self.old.right) }
    {
        let at = if self.newest == 0 {
            31
        } else {
            self.newest - 1
        };
        self.left[at] = input.left;
        self.left[at + 32] = input.left;
        self.right[at] = input.right;
        self.right[at + 32] = input.right;
        self.newest = at;
    }
}

// The taps behind the first, filled up with 0.
fn later_taps(set: &TapSet) -> [i16; 32]
    ensures { result ≡ take (set.now.count - 1) (drop 1 set.now.taps) ++ replicate (32 - (set.now.count - 1)) (pos 0) }
{
    let mut later = [0; 32];
    later[..set.count - 1].copy_from_slice(&set.taps[1..set.count]);
    later
}

impl Filter {
    // A filter with these taps and no input yet: earlier inputs are 0.
    pub fn new(set: TapSet) -> Filter
        ensures { (fs : List Moment) → makes_of result fs ≡ filtered (taps_of set) [] [] fs }
    {
        Filter {
            first: set.taps[0],
            later: later_taps(&set),
            line: DelayLine::default(),
        }
    }

    // What comes out where this frame goes in.
    pub fn output(&self, input: Frame) -> Frame
        ensures { result ≡ output_of self.now input }
    {
        Frame {
            left: self.sample(input.left, &self.line.left),
            right: self.sample(input.right, &self.line.right),
        }
    }

    // The frame went in: it is the newest input now, and the oldest is forgotten.
    pub fn push(&mut self, input: Frame)
        ensures state { Pushed self.old input self.new }
        ensures rule { (fs : List Moment) → makes_of self.old (input ∷ fs) ≡ output_of self.old input ∷ makes_of self.new fs }
    {
        self.line.push(input);
    }
}
