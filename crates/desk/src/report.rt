// What the desk prints.
use crate::playing::Halt;
use codes::cause;
use frames::frame::Frame;

pub fn say_recording(rt: &HostRuntime, size: usize, frames: &[Frame]) -> anyhow::Result<()> {
    let count = frames.len();
    let rest = size % 4;
    println!(rt; "The recording has {size} bytes: {count} frames of 16-bit stereo.")?;
    if rest > 0 {
        println!(rt; "Its last {rest} bytes are no whole frame and were left out.")?;
    }
    Ok(())
}

pub fn say_pile(rt: &HostRuntime, mark: u32, room: usize) -> anyhow::Result<()> {
    println!(rt;
        "It goes through gain 192/256 and a low-pass filter of 3 taps onto a tape for {room} frames."
    )?;
    println!(rt; "The tape is set to fail once, after {mark} frames.")?;
    println!(rt; "")?;
    Ok(())
}

pub fn say_halts(rt: &HostRuntime, halts: &[Halt]) -> anyhow::Result<()> {
    for halt in halts {
        let after = halt.after;
        let number = halt.stop.cause;
        let depth = halt.stop.depth;
        let why = cause::name(number);
        println!(rt;
            "After {after} frames the sink stopped: {why} (cause {number}, named {depth} layers below the top)."
        )?;
        if halt.went_on {
            println!(rt; "It was healed and went on.")?;
        } else {
            println!(rt; "Healing did not help, so the playing ended there.")?;
        }
    }
    Ok(())
}

pub fn say_end(rt: &HostRuntime, count: usize, played: usize, heard: usize) -> anyhow::Result<()> {
    let left = count.saturating_sub(played);
    println!(rt; "")?;
    println!(rt; "Frames in the recording: {count}")?;
    println!(rt; "Frames played:           {played}")?;
    println!(rt; "Frames not played:       {left}")?;
    println!(rt; "Frames on the tape:      {heard}")?;
    Ok(())
}

// The loudest sample of each channel, of the recording and of the tape.
pub fn say_peaks(rt: &HostRuntime, before: Frame, after: Frame) -> anyhow::Result<()> {
    let l = before.left;
    let r = before.right;
    let m = after.left;
    let s = after.right;
    println!(rt;
        "Loudest samples, left and right: {l} and {r} in the recording, {m} and {s} on the tape."
    )?;
    Ok(())
}
