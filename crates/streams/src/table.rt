// Both streams, each with all that its calls are given.
use capture::situation::Situation as CaptureSituation;
use playback::situation::Situation as PlaybackSituation;

// Its lifetimes are those of the loans in order, playback's and then capture's.
#[derive(Drop)]
pub struct Table<'p, 'sink, 'p_memory, 'p_ledger, 'c, 'source, 'c_memory, 'c_ledger, 'host, S, R> {
    pub playback: PlaybackSituation<'p, 'sink, 'p_memory, 'p_ledger, S>,
    pub capture: CaptureSituation<'c, 'source, 'c_memory, 'c_ledger, 'host, R>,
}
