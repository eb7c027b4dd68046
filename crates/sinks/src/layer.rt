// A layer over any sink: what it does to the frames that go through, and the sink below, which it gives back.
ghost use Rattle.std.specs.Prelude.{◌≡◌};

use crate::sink::Sink;

// Each effect has its own `impl Sink` for its layer, which says in six lines what the layer shows. One `impl` over a trait
// of effects is no plainer: the trait needs a clause for each point of an offer and a heal, and each effect the same six
// lines again, so that what a layer shows would stand in three places.
#[derive(Drop)]
pub struct Layer<D: Sink, E> {
    pub(crate) below: D,
    pub(crate) effect: E,
}

impl<D: Sink, E: Drop> Layer<D, E> {
    pub fn into_below(self) -> D
        ensures { result ≡ self.below }
    {
        let Layer { below, effect: _ } = self;
        below
    }
}
