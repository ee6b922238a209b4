// The generator of pseudo-random numbers.
ghost use Rattle.std.specs.Prelude.{◌≡◌};
ghost use Rattle.generated_cell.specs.Generator.{next_state, draw_of, draws};

use std::marker::Model;

/// A linear congruential generator modulo 2^31. Contracts see its state.
#[derive(Drop)]
pub(crate) struct Generator {
    state: u32,
}

impl Model for Generator {
    ghost use Rattle.std.specs.Prelude.{ℕ};

    ghost Value = { ℕ };

    ghost view = { λ g. g.state };
}

impl Generator {
    /// The generator with this state.
    fn new(seed: u32) -> Generator
        ensures { result ≡ seed }
    {
        Generator { state: seed }
    }

    /// The next number, 0 to 2.
    fn draw(&mut self) -> u32
        ensures state { self.new ≡ next_state self.old }
        ensures value { result ≡ draw_of self.new }
    {
        self.state = ((self.state as u64 * 1_103_515_245 + 12_345) % (1 << 31)) as u32;
        self.state / 65_536 % 3
    }
}

/// The first eight numbers, each 0 to 2, that the generator draws from this seed.
pub(crate) fn draws(seed: u32) -> [u32; 8]
    ensures { result ≡ draws 8 seed }
{
    let mut generator = Generator::new(seed);
    let mut draws = [0; 8];
    for c in 0..8usize {
        draws[c] = generator.draw();
    }
    draws
}
