// The volumes of the balls, worked out.
ghost use Rattle.code.specs.Operations.{block_limit};
ghost use Rattle.std.specs.Prelude.{◌≡◌, ◌≤◌};
ghost use Rattle.code.specs.Volume.{volume};

// V(t, s): the sum of the binomials C(t, i) for i up to s, or up to t, past which they are 0. Each
// comes from the one before; the product goes first, for only then is the division exact.
pub fn volume_at(t: u32, s: u32) -> u32
    requires { (t ≤ block_limit) × (s ≤ block_limit) }
    ensures { result ≡ volume t s }
{
    let mut binomial = 1;
    let mut sum = 1;
    for i in 0..s.min(t) {
        binomial = binomial * (t - i) / (i + 1);
        sum += binomial;
    }
    sum
}
