// From R, B, A and C to the spared energy in eighteenths of a Wh. What is added and what is taken away are two sums, so that nothing
// signed is held.
ghost use Rattle.std.specs.Prelude.{◌≡◌, ◌-◌};
ghost use Rattle.energy.specs.Ready.{SumsFit, FactorsFit, IsProduct};
ghost use Rattle.energy.specs.Spared.{spared_of};

// x times k, both small enough that nothing wraps.
fn scaled(x: u64, k: u64) -> u64
    requires { FactorsFit x k }
    ensures { IsProduct x k result }
{
    x * k
}

// The spared energy. The limit stands only above a trial of 40 kWh, and 3A - B is above 2B exactly when A is above B.
#[tactic(auto, using(crate::proofs::SparedLaws::spared_below, crate::proofs::SparedLaws::spared_uncapped, crate::proofs::SparedLaws::spared_capped))]
pub(crate) fn spared(h: u64, w: u64, r: u64, b: u64, a: u64, c: u64) -> u64
    requires { SumsFit h w r b a c }
    ensures { result ≡ spared_of h w r b a c }
{
    let k = 6 * h / w;
    let more = 6 * r + scaled(3 * a, k);
    let less = scaled(b, k) + 18 * c;
    if 720000 + less < more && b < a {
        return (6 * r + scaled(2 * b, k)).saturating_sub(18 * c);
    }
    more.saturating_sub(less)
}
