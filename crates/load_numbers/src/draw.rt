// The generator of loads.
ghost use Rattle.std.specs.Prelude.{◌≡◌};
ghost use Rattle.load_statements.specs.Draw.{next, draw_of_state};

#[derive(Clone, Copy)]
pub struct Generator {
    pub state: u32,
}

// What a draw gives, and the generator after it.
#[derive(Clone, Copy)]
pub struct Drawn {
    pub value: u32,
    pub generator: Generator,
}

impl Generator {
    pub fn draw(self) -> Drawn
        ensures { (result.value ≡ draw_of_state (next self.state)) × (result.generator.state ≡ next self.state) }
    {
        let state = ((1664525 * (self.state as u64) + 1013904223) % 4294967296) as u32;
        Drawn {
            value: state / 65536,
            generator: Generator { state: state },
        }
    }
}
