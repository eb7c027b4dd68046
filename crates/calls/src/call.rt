// Calls as data.
use crate::lease_parts::LeaseParts;
use frames::frame::Frame;

// Which memory a call is given: the stream's own, or one of another length.
#[derive(Clone, Copy)]
pub enum Given {
    Own,
    Another,
}

#[derive(Clone, Copy)]
pub enum PlaybackCall<'a> {
    Begin(u32),
    Put(Given, LeaseParts, u32, &'a [Frame]),
    Mix(Given, LeaseParts, u32, &'a [Frame]),
    Commit(LeaseParts, u32),
    Start,
    Tick(Given, Given, u32),
    Pause,
    Resume,
    Drain,
    Drop(Given),
    Prepare(Given),
    Take(Given),
}

// A copy goes into the part of the host's memory that begins at a place and has a length, as far as that memory goes.
#[derive(Clone, Copy)]
pub enum CaptureCall {
    Begin(u32),
    Copy(Given, LeaseParts, u32, u32, u32),
    Commit(LeaseParts, u32),
    Start,
    Tick(Given, Given, u32),
    Pause,
    Resume,
    Drain,
    Drop(Given),
    Prepare(Given),
    Take(Given),
}

#[derive(Clone, Copy)]
pub enum Call<'a> {
    Playback(PlaybackCall<'a>),
    Capture(CaptureCall),
}
