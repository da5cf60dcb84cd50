//! The median of the batches.
ghost use Rattle.tls_codec_bench.specs.Median.{IsMedian};

/// How many batches a figure is taken from, an odd number.
pub const BATCHES: usize = 15;

/// The middle one of the figures.
pub fn median(mut figures: [u64; BATCHES]) -> u64
    ensures { IsMedian figures result }
{
    figures.sort_unstable();
    figures[BATCHES / 2]
}
