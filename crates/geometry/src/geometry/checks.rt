// The check of a stream's numbers.
ghost use Rattle.std.specs.Prelude.{◌≡◌, ◌≤◌};
ghost use Rattle.geometry.specs.Boundary.{boundary_for};
ghost use Rattle.geometry.specs.Checks.{Checked};
ghost use Rattle.geometry.specs.Rules.{Wraps, starts_at};

use super::Geometry;
use codes::refusal::Refusal;

const LAST: u32 = 2_147_483_647;

// The buffer is shifted until its highest bit is bit 30; where that passes the limit, by one bit less.
fn boundary_of(buffer: u32) -> u32
    requires least { 2 ≤ buffer }
    requires most { buffer ≤ 65536 }
    ensures answer { result ≡ boundary_for buffer }
    ensures rule { Wraps buffer result }
{
    let doublings = buffer.leading_zeros() - 1;
    if buffer << doublings > LAST - buffer {
        buffer << (doublings - 1)
    } else {
        buffer << doublings
    }
}

impl Geometry {
    // The threshold is one frame unless it is set. The five numbers stay five: they travel together nowhere else, and a
    // struct of them would be written out by each caller and taken apart here at once.
    pub fn check(
        buffer: u32,
        period: u32,
        threshold: Option<u32>,
        ledger: u32,
        tag: u32,
    ) -> Result<Geometry, Refusal>
        ensures { Checked buffer period (starts_at threshold) ledger tag result }
    {
        if !(2..=65536).contains(&buffer) {
            return Err(Refusal::Geometry);
        }
        if period == 0 || period > buffer / 2 || buffer % period != 0 {
            return Err(Refusal::Geometry);
        }
        let threshold = threshold.unwrap_or(1);
        if !(1..=buffer).contains(&threshold) || !(1..=65536).contains(&ledger) {
            return Err(Refusal::Geometry);
        }
        let boundary = boundary_of(buffer);
        Ok(Geometry {
            buffer,
            period,
            threshold,
            ledger,
            tag,
            boundary,
        })
    }
}
