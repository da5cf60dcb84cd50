//! Numbers that look random, and are the same in each run.
ghost use Rattle.std.specs.Prelude.{◌≡◌};
ghost use Rattle.tls_codec_bench.specs.Noise.{state_of, shifted};

/// Marsaglia's xorshift generator of 64 bits, with the shifts 13, 7 and 17.
#[derive(Clone, Drop)]
pub struct Noise {
    state: u64,
}

impl Noise {
    /// The generator at its start.
    pub fn new() -> Noise
        ensures { state_of result ≡ 11400714819323198485 }
    {
        Noise {
            state: 11_400_714_819_323_198_485,
        }
    }

    /// The next number, which is the state that the generator is left in.
    pub fn number(&mut self) -> u64
        ensures number { result ≡ shifted (state_of self.old) }
        ensures state { state_of self.new ≡ result }
    {
        let mut state = self.state;
        state ^= state << 13;
        state ^= state >> 7;
        state ^= state << 17;
        self.state = state;
        state
    }
}
