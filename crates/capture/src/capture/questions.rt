// What can be asked of a capture stream.
ghost use Rattle.std.specs.Prelude.{◌≡◌, ◌+◌};
ghost use Rattle.geometry.specs.Pointers.{capture_avail, pointer_of};

use super::Capture;
use codes::state::State;

impl Capture {
    pub fn state(&self) -> State
        ensures { result ≡ self.now.state }
    {
        self.state
    }

    // The pointer of the oldest unread frame.
    pub fn application(&self) -> u32
        ensures { result ≡ pointer_of self.now.geometry.boundary self.now.oldest }
    {
        self.geometry.pointer(self.oldest)
    }

    // The pointer of the next frame that is stored.
    pub fn hardware(&self) -> u32
        ensures { result ≡ pointer_of self.now.geometry.boundary (self.now.oldest + self.now.unread) }
    {
        self.geometry.pointer(self.oldest + self.unread)
    }

    // The frames from the application's pointer to the hardware's are those that are unread.
    fn between(&self, hardware: u32, application: u32) -> u32
        requires hardware { hardware ≡ pointer_of self.now.geometry.boundary (self.now.oldest + self.now.unread) }
        requires application { application ≡ pointer_of self.now.geometry.boundary self.now.oldest }
        ensures answer { result ≡ capture_avail self.now.geometry.boundary hardware application }
        ensures numbers { result ≡ self.now.unread }
    {
        self.geometry.capture_avail(hardware, application)
    }

    // How many frames wait to be read, by the pointers.
    pub fn avail(&self) -> u32
        ensures answer { result ≡ capture_avail self.now.geometry.boundary (pointer_of self.now.geometry.boundary (self.now.oldest + self.now.unread)) (pointer_of self.now.geometry.boundary self.now.oldest) }
        ensures numbers { result ≡ self.now.unread }
    {
        self.between(self.hardware(), self.application())
    }
}
