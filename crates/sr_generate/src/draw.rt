//! Numbers that look drawn by chance.
ghost use Rattle.std.specs.Prelude.{◌≡◌, ◌<◌, ◌≢◌};
ghost use Rattle.sr_generate.specs.Script.{after, drawn};

/// What the next draws come from.
#[derive(Clone, Copy)]
pub struct Draws {
    pub state: u64,
}

impl Draws {
    /// A number below `many`.
    pub fn draw(&mut self, many: u64) -> u64
        requires { 0 < many }
        ensures drawn { result ≡ drawn many self.new.state }
        ensures after { self.new.state ≡ after self.old.state }
        ensures below { result < many }
    {
        self.state = next(self.state);
        (self.state >> 33) % many
    }
}

/// The state behind a draw.
fn next(state: u64) -> u64
    ensures { result ≡ after state }
{
    state
        .wrapping_mul(6_364_136_223_846_793_005)
        .wrapping_add(1_442_695_040_888_963_407)
}
