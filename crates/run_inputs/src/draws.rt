//! The numbers from which a table is generated.
ghost use Rattle.std.specs.Prelude.{◌≡◌};
ghost use Rattle.run_inputs.specs.Draws.{draw, drawn};

/// A linear congruential generator of 64 bits. Its draws are the high 32 bits of its states.
#[derive(Drop)]
pub(crate) struct Draws {
    pub(crate) state: u64,
}

impl Draws {
    /// The next draw.
    #[tactic(auto, unfolding(crate::specs::Draws::draw))]
    pub(crate) fn next(&mut self) -> u32
        ensures state { self.new.state ≡ draw self.old.state }
        ensures number { result ≡ drawn (draw self.old.state) }
    {
        // Only here does the prover see the step, so that it never computes with the generator's numbers.
        self.state = self
            .state
            .wrapping_mul(6364136223846793005)
            .wrapping_add(1442695040888963407);
        (self.state / 4294967296) as u32
    }
}
