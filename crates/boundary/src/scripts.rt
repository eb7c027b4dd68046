// A whole script: its header, its calls, and what is written behind them.
use crate::failure::Failure;
use crate::header::read_setup;
use crate::reading::Reader;
use crate::running::{Script, put_head, run};
use crate::shape::Shape;
use std::alloc::{AllocError, Global};

// Runs a script onto a pile of the shape that its setup asks for. Each arm makes a pile of another type.
fn run_shape(script: Script<'_>, out: &mut [u8]) -> Result<usize, AllocError> {
    let heap = script.heap;
    let setup = script.setup;
    match setup.shape {
        Shape::Bytes => run(script, setup.byte_tape(heap)?, out),
        Shape::Frames => run(script, setup.frame_tape(heap)?, out),
        Shape::FaultBytes => run(script, setup.fault(setup.byte_tape(heap)?), out),
        Shape::GainFaultFrames => run(
            script,
            setup.gain(setup.fault(setup.frame_tape(heap)?)),
            out,
        ),
        Shape::FilterGainFaultBytes => run(
            script,
            setup.filter(setup.gain(setup.fault(setup.byte_tape(heap)?))),
            out,
        ),
        Shape::KeepFilterGainFaultBytes => run(
            script,
            setup.keep(setup.filter(setup.gain(setup.fault(setup.byte_tape(heap)?)))),
            out,
        ),
        Shape::FaultKeepBytes => run(script, setup.fault(setup.keep(setup.byte_tape(heap)?)), out),
        Shape::GainKeepFilterFrames => run(
            script,
            setup.gain(setup.keep(setup.filter(setup.frame_tape(heap)?))),
            out,
        ),
    }
}

fn try_script(heap: Global, bytes: &[u8], out: &mut [u8]) -> Result<usize, Failure> {
    let mut calls = Reader::new(bytes);
    let setup = read_setup(&mut calls)?;
    Ok(run_shape(Script { heap, setup, calls }, out)?)
}

// Runs a script and answers how many bytes were written.
pub fn run_script(heap: Global, bytes: &[u8], out: &mut [u8]) -> usize {
    try_script(heap, bytes, out).unwrap_or_else(|failure| put_head(out, Err(failure), 0))
}
