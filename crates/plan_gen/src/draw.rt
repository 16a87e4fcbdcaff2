ghost use Rattle.std.specs.Prelude.{◌≡◌, ℕ, ◌+◌, ◌-◌, ◌*◌, ◌/◌, ◌%◌, ◌^◌, ◌<◌, ◌≤◌};
ghost use Rattle.plan_gen.specs.Draw.{next_state, state_after, given_by};

/// A linear congruential generator of numbers.
#[derive(Drop)]
pub struct Generator {
    state: u32,
    ghost in_range: { state < 2 ^ 31 },
}

impl Generator {
    #[tactic(auto, unfolding(crate::specs::Draw::state_after))]
    pub fn new(number: u32) -> Generator
        ensures { result.state ≡ state_after number 0 }
    {
        Generator {
            state: number % (1 << 31),
        }
    }

    /// The next number below a bound.
    pub fn below(&mut self, bound: u32) -> u32
        requires { 1 ≤ bound }
        ensures state { self.new.state ≡ next_state self.old.state }
        ensures value { result ≡ given_by self.new.state bound }
        ensures below { result < bound }
    {
        let state = (1103515245 * u64::from(self.state) + 12345) % (1 << 31);
        self.state = state as u32;
        self.state / 65536 % bound
    }
}
