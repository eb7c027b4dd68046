// Sums on pointers, which wrap at the boundary. Every number is taken: what is not below the boundary is wrapped first.
ghost use Rattle.std.specs.Prelude.{◌≡◌, ◌+◌, ◌-◌, ◌/◌, ◌%◌, ◌<◌};
ghost use Rattle.geometry.specs.Pointers.{area_length, capture_avail, place_of, playback_avail, pointer_of};

use super::Geometry;

// What is left of a number by a size. The common case, a number that passes the size once at most, takes no division.
fn wrapped(number: u64, size: u32) -> u32
    requires { 0 < size }
    ensures { result ≡ number % size }
{
    let whole = size as u64;
    if number < whole {
        return number as u32;
    }
    let past = number - whole;
    if past < whole {
        return past as u32;
    }
    (past % whole) as u32
}

impl Geometry {
    // The pointer of a count of frames.
    pub fn pointer(&self, count: u32) -> u32
        ensures answer { result ≡ pointer_of self.now.boundary count }
        ensures rule { result < self.now.boundary }
    {
        wrapped(count as u64, self.boundary)
    }

    // A pointer some frames further on.
    pub fn advance(&self, pointer: u32, frames: u32) -> u32
        ensures answer { result ≡ pointer_of self.now.boundary (pointer + frames) }
        ensures rule { result < self.now.boundary }
    {
        wrapped(pointer as u64 + frames as u64, self.boundary)
    }

    // Where in the buffer a frame stands, by its number or by the pointer of that.
    pub fn place(&self, number: u32) -> u32
        ensures answer { result ≡ place_of self.now.buffer number }
        ensures rule { result < self.now.buffer }
    {
        number % self.buffer
    }

    // The frames that are free to be written.
    pub fn playback_avail(&self, hardware: u32, application: u32) -> u32
        ensures answer { result ≡ playback_avail self.now.buffer self.now.boundary hardware application }
        ensures rule { result < self.now.boundary }
    {
        let behind = self.boundary - wrapped(application as u64, self.boundary);
        wrapped(
            hardware as u64 + self.buffer as u64 + behind as u64,
            self.boundary,
        )
    }

    // The frames that wait to be read.
    pub fn capture_avail(&self, hardware: u32, application: u32) -> u32
        ensures answer { result ≡ capture_avail self.now.boundary hardware application }
        ensures rule { result < self.now.boundary }
    {
        let behind = self.boundary - wrapped(application as u64, self.boundary);
        wrapped(hardware as u64 + behind as u64, self.boundary)
    }

    // How long an unbroken area can be, from a place on.
    pub fn area(&self, wanted: u32, avail: u32, place: u32) -> u32
        ensures { result ≡ area_length self.now.buffer wanted avail place }
    {
        wanted.min(avail).min(self.buffer.saturating_sub(place))
    }

    // The periods that end within the next n frames after a count of frames.
    pub fn periods(&self, count: u32, n: u32) -> u32
        ensures { result ≡ (count + n) / self.now.period - count / self.now.period }
    {
        let period = self.period as u64;
        ((count as u64 + n as u64) / period - count as u64 / period) as u32
    }
}
