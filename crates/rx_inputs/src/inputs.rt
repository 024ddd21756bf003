ghost use Rattle.std.specs.Prelude.{◌≡◌};
ghost use Rattle.rx_inputs.specs.Refusals.{limit_of};

/// What a file that a command reads is for.
#[derive(Clone, Copy)]
pub enum Input {
    Schema,
    Data,
    Statistics,
    Script,
}

impl Input {
    /// The most bytes that such a file may have.
    pub fn limit(self) -> u64
        ensures { result ≡ limit_of self }
    {
        match self {
            Input::Schema => 1048576,
            Input::Data => 33554432,
            Input::Statistics => 1048576,
            Input::Script => 1048576,
        }
    }
}
