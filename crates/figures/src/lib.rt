// Worked figures: as theorems about the definitions, and as tests that run the code on the same numbers.
#![tactic(auto)]

ghost use Rattle.figures.specs.Figures.{Figures};

pub fn figures_stand() -> u8
    ensures { Figures }
{
    0
}

#[cfg(test)]
mod tests {
    use calls::entry::Entry;
    use codes::entry_kind::EntryKind;
    use codes::refusal::Refusal;
    use codes::state::State;
    use frames::factor::Factor;
    use frames::filter::Filter;
    use frames::frame::Frame;
    use frames::taps::TapSet;
    use geometry::geometry::Geometry;
    use playback::playback::Playback;
    use sinks::feed::offer_all;
    use sinks::frame_tape::FrameTape;
    use sinks::keep::Keep;
    use sinks::sink::Sink;
    use std::test::Fail;

    // No kind of entry is the usual one, so there is no default.
    const NO_ENTRY: Entry = Entry {
        kind: EntryKind::Underrun,
        first: 0,
        lost: 0,
        missed: 0,
        cause: 0,
        depth: 0,
    };

    fn mono(n: i16) -> Frame {
        Frame { left: n, right: n }
    }

    #[test]
    fn pointers_across_the_boundary(rt: HostRuntime) -> Result<(), Fail> {
        let geometry = Geometry::check(8, 4, None, 4, 1)?;
        assert_eq!(rt; geometry.boundary(), 1_073_741_824);
        assert_eq!(rt; geometry.playback_avail(1_073_741_820, 2), 2);
        assert_eq!(rt; geometry.capture_avail(1, 1_073_741_822), 3);
        assert_eq!(rt; geometry.area(9, 6, 5), 3);
        Ok(())
    }

    #[test]
    fn gain_rounds_down(rt: HostRuntime) {
        assert_eq!(rt; mono(1).gain(128), mono(0));
        assert_eq!(rt; mono(-1).gain(128), mono(-1));
    }

    #[test]
    fn the_largest_product_is_limited(rt: HostRuntime) -> Result<(), Fail> {
        let mut taps = [0; 32];
        taps[0] = -32768;
        let filter = Filter::new(TapSet::check(taps, 1)?);
        assert_eq!(rt; filter.output(mono(-32768)), mono(32767));
        Ok(())
    }

    #[test]
    fn two_equal_taps(rt: HostRuntime) -> Result<(), Fail> {
        let mut taps = [0; 32];
        taps[0] = 16384;
        taps[1] = 16384;
        let mut filter = Filter::new(TapSet::check(taps, 2)?);
        assert_eq!(rt; filter.output(mono(100)), mono(50));
        filter.push(mono(100));
        assert_eq!(rt; filter.output(mono(101)), mono(101));
        Ok(())
    }

    #[test]
    fn every_third(rt: HostRuntime) -> Result<(), Fail> {
        let heap = rt.alloc();
        let mut keep = Keep::new(
            FrameTape::new(vec![in heap; mono(0); 3]?),
            Factor::check(3)?,
        );
        assert_eq!(rt; keep.allowance(), 9);
        let frames = [
            mono(1),
            mono(2),
            mono(3),
            mono(4),
            mono(5),
            mono(6),
            mono(7),
        ];
        assert_eq!(rt; offer_all(&mut keep, &frames[0..1]).taken, 1);
        assert_eq!(rt; keep.allowance(), 8);
        assert_eq!(rt; offer_all(&mut keep, &frames[1..7]).taken, 6);
        let tape = keep.into_below().into_memory();
        assert_eq!(rt; tape.get(0).copied(), Some(mono(1)));
        assert_eq!(rt; tape.get(1).copied(), Some(mono(4)));
        assert_eq!(rt; tape.get(2).copied(), Some(mono(7)));
        Ok(())
    }

    // Leases and commits n frames, as they stand.
    fn commit(stream: &mut Playback, n: u32) -> Result<(), Refusal> {
        let lease = stream.begin(n)?;
        stream.commit(lease, n)
    }

    #[test]
    fn a_tick_of_7_misses_2(rt: HostRuntime) -> Result<(), Fail> {
        let heap = rt.alloc();
        let mut tape = FrameTape::new(vec![in heap; mono(0); 8]?);
        let mut stream = Playback::new(Geometry::check(8, 4, Some(5), 4, 1)?);
        let memory = [mono(0); 8];
        let mut ledger = [NO_ENTRY; 4];
        stream.prepare(&mut tape, &mut ledger)?;
        commit(&mut stream, 5)?;
        let ticked = stream.tick(&mut tape, &memory, &mut ledger, 7)?;
        assert_eq!(rt; ticked.frames, 5);
        assert_eq!(rt; ticked.state, State::Xrun);
        assert_eq!(rt; ticked.periods, 1);
        let missed = stream.take(&mut ledger)?.map_or(0, |entry| entry.missed);
        assert_eq!(rt; missed, 2);
        Ok(())
    }

    #[test]
    fn a_commit_beyond_its_lease_ends_it(rt: HostRuntime) -> Result<(), Fail> {
        let heap = rt.alloc();
        let mut tape = FrameTape::new(vec![in heap; mono(0); 8]?);
        let mut stream = Playback::new(Geometry::check(8, 4, None, 4, 1)?);
        let mut ledger = [NO_ENTRY; 4];
        stream.prepare(&mut tape, &mut ledger)?;
        let lease = stream.begin(5)?;
        let refused = stream.commit(lease, 6);
        assert_eq!(rt; refused, Err(Refusal::Beyond));
        // Drain is refused while a lease is out.
        assert_eq!(rt; stream.drain(), Ok(()));
        Ok(())
    }

    // Commits and drops so many whole buffers.
    fn throw_away(
        stream: &mut Playback,
        tape: &mut FrameTape,
        ledger: &mut [Entry],
        buffers: u32,
    ) -> Result<(), Refusal> {
        for _ in 0..buffers {
            stream.prepare(tape, ledger)?;
            commit(stream, 65536)?;
            stream.drop(ledger)?;
            let _ = stream.take(ledger)?;
        }
        stream.prepare(tape, ledger)
    }

    #[test]
    fn the_last_frame_number_is_reached(rt: HostRuntime) -> Result<(), Fail> {
        let heap = rt.alloc();
        let mut tape = FrameTape::new(vec![in heap; mono(0); 1]?);
        let mut stream = Playback::new(Geometry::check(65536, 32768, None, 4, 1)?);
        let mut ledger = [NO_ENTRY; 4];
        throw_away(&mut stream, &mut tape, &mut ledger, 65535)?;
        commit(&mut stream, 65535)?;
        assert_eq!(rt; commit(&mut stream, 1), Err(Refusal::Limit));
        Ok(())
    }
}
