// How many processes take part.
ghost use Rattle.std.specs.Prelude.{◌≡◌, ◌+◌, ◌*◌, ◌≤◌, ◌<◌};
ghost use Rattle.fields.specs.Numbers.{slots};

// A process count that both machines take. (`tokens` has a private type of the same fact; one for both would be a public call more.)
#[derive(Clone, Copy)]
pub(crate) struct ProcessCount {
    pub(crate) n: u8,
    ghost positive: { 0 < n },
    ghost within_slots: { n ≤ slots },
}

impl ProcessCount {
    // "A passage without waits takes 3n + 5 steps."
    pub(crate) fn passage(self) -> u16
        ensures { result ≡ 3 * self.n + 5 }
    {
        3 * u16::from(self.n) + 5
    }
}
