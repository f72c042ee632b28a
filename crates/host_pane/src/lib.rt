// A pane of glass, as host programs are told of it: a number for the kind of answer, and its values in a small array.
#![tactic(auto)]

ghost use Rattle.std.specs.Prelude.{◌≡◌};
ghost use Rattle.host_pane.specs.Host.{factors_kind, factors_values, transmitted_kind, transmitted_values};
ghost use Rattle.pane.specs.Factors.{factors_of};
ghost use Rattle.pane.specs.Transmissivity.{transmissivity_of};

use pane::Interreflection;

// The factors of a pane: 0 or the refusal's number, and what goes through and what comes back.
pub fn tell_factors(te: f64, tm: f64, ct: f64, answer: &mut [f64; 2]) -> u32
    ensures value { result ≡ factors_kind (factors_of te tm ct) }
    ensures answer_after { answer.new ≡ factors_values (factors_of te tm ct) }
{
    match pane::factors(te, tm, ct) {
        Ok(Interreflection { through, back }) => {
            *answer = [through, back];
            0
        }
        Err(reason) => {
            *answer = [0.0; 2];
            reason.number()
        }
    }
}

// The transmissivity of a transmittance: 0 or the refusal's number, and the value.
pub fn tell_transmissivity(t: f64, answer: &mut [f64; 1]) -> u32
    ensures value { result ≡ transmitted_kind (transmissivity_of t) }
    ensures answer_after { answer.new ≡ transmitted_values (transmissivity_of t) }
{
    match pane::transmissivity(t) {
        Ok(x) => {
            *answer = [x];
            0
        }
        Err(reason) => {
            *answer = [0.0];
            reason.number()
        }
    }
}
