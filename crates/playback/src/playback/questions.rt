// What can be asked of a playback stream.
ghost use Rattle.std.specs.Prelude.{◌≡◌};
ghost use Rattle.geometry.specs.Pointers.{pointer_of, playback_avail};
ghost use Rattle.account.specs.PlaybackBook.{free};
ghost use Rattle.playback.specs.PlaybackBook.{book_of};

use super::Playback;
use codes::state::State;

impl Playback {
    pub fn state(&self) -> State
        ensures { result ≡ self.now.state }
    {
        self.state
    }

    // The pointer of the frames committed.
    pub fn application(&self) -> u32
        ensures { result ≡ pointer_of self.now.geometry.boundary self.now.committed }
    {
        self.geometry.pointer(self.committed)
    }

    // The pointer of the frames played or thrown away.
    pub fn hardware(&self) -> u32
        ensures { result ≡ pointer_of self.now.geometry.boundary self.now.oldest }
    {
        self.geometry.pointer(self.oldest)
    }

    // What the pointers say is free.
    fn between_pointers(&self) -> u32
        ensures { result ≡ playback_avail self.now.geometry.buffer self.now.geometry.boundary (pointer_of self.now.geometry.boundary self.now.oldest) (pointer_of self.now.geometry.boundary self.now.committed) }
    {
        let hardware = self.hardware();
        let application = self.application();
        self.geometry.playback_avail(hardware, application)
    }

    // The places that are free: by the pointers, and so by the counts.
    pub fn avail(&self) -> u32
        ensures answer { result ≡ playback_avail self.now.geometry.buffer self.now.geometry.boundary (pointer_of self.now.geometry.boundary self.now.oldest) (pointer_of self.now.geometry.boundary self.now.committed) }
        ensures rule { result ≡ free (book_of self.now) }
    {
        self.between_pointers()
    }
}
