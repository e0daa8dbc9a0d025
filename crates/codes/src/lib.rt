// How an answer crosses to C: the refusal's number is returned, 0 for none, and the values go into numbers that the caller lends. A
// refusal leaves those as they are. Of our own; nothing is ported.
#![tactic(auto, unfolding(crate::specs::Code::reported, crate::specs::Code::values_of, crate::specs::Code::scaled_values))]

ghost use Rattle.std.specs.Prelude.{◌≡◌, ℕ, [], ◌∷◌};
ghost use Rattle.answers.specs.Refusal.{number_of};
ghost use Rattle.answers.specs.Outcome.{done, truth as true_or_false, number, stands, margins_of, lengths_of, scaled_of, ruling_by};
ghost use Rattle.codes.specs.Code.{real, whole, values_of, scaled_values, reported, report};

use answers::{Margins, Refusal, Standing, StepPair};

// What can be told as a refusal's number: a refusal of `answers`, or any number, as it is.
pub trait Numbered: Copy {
    ghost number: { Self → ℕ };

    fn number(self) -> u8
        ensures { result ≡ number self };
}

impl Numbered for Refusal {
    ghost number = { number_of };

    fn number(self) -> u8 {
        u8::from(self)
    }
}

impl Numbered for u8 {
    ghost number = { λ n. n };

    fn number(self) -> u8 {
        self
    }
}

pub fn answer<E: Numbered>(a: Result<(), E>) -> u8
    ensures { report result [] ≡ reported values_of [] (ruling_by E.number (λ _. done) a) }
{
    match a {
        Ok(()) => 0,
        Err(refusal) => refusal.number(),
    }
}

pub fn margins<E: Numbered>(m: Result<Margins, E>, alpha: &mut f64, beta: &mut f64) -> u8
    ensures { report result (real alpha.new ∷ real beta.new ∷ [])
        ≡ reported values_of (real alpha.old ∷ real beta.old ∷ []) (ruling_by E.number margins_of m) }
{
    match m {
        Ok(found) => {
            *alpha = found.alpha;
            *beta = found.beta;
            0
        }
        Err(refusal) => refusal.number(),
    }
}

pub fn scaling<E: Numbered>(s: Result<bool, E>, truth: &mut u8) -> u8
    ensures { report result (whole truth.new ∷ []) ≡ reported values_of (whole truth.old ∷ []) (ruling_by E.number true_or_false s) }
{
    match s {
        Ok(t) => {
            *truth = t as u8;
            0
        }
        Err(refusal) => refusal.number(),
    }
}

// The cone's index is told of a false alone.
pub fn scalings<E: Numbered>(
    first_false: Result<Option<usize>, E>,
    truth: &mut u8,
    cone: &mut usize,
) -> u8
    ensures { report result (whole truth.new ∷ whole cone.new ∷ [])
        ≡ reported (scaled_values cone.old) (whole truth.old ∷ whole cone.old ∷ []) (ruling_by E.number scaled_of first_false) }
{
    match first_false {
        Ok(None) => {
            *truth = 1;
            0
        }
        Ok(Some(k)) => {
            *truth = 0;
            *cone = k;
            0
        }
        Err(refusal) => refusal.number(),
    }
}

pub fn number<E: Numbered>(x: Result<f64, E>, value: &mut f64) -> u8
    ensures { report result (real value.new ∷ []) ≡ reported values_of (real value.old ∷ []) (ruling_by E.number number x) }
{
    match x {
        Ok(v) => {
            *value = v;
            0
        }
        Err(refusal) => refusal.number(),
    }
}

pub fn steps<E: Numbered>(pair: Result<StepPair, E>, step_z: &mut f64, step_s: &mut f64) -> u8
    ensures { report result (real step_z.new ∷ real step_s.new ∷ [])
        ≡ reported values_of (real step_z.old ∷ real step_s.old ∷ []) (ruling_by E.number lengths_of pair) }
{
    match pair {
        Ok(steps) => {
            *step_z = steps.z;
            *step_s = steps.s;
            0
        }
        Err(refusal) => refusal.number(),
    }
}

pub fn stands<E: Numbered>(z: Result<Standing, E>, standing: &mut u8) -> u8
    ensures { report result (whole standing.new ∷ []) ≡ reported values_of (whole standing.old ∷ []) (ruling_by E.number stands z) }
{
    match z {
        Ok(s) => {
            *standing = u8::from(s);
            0
        }
        Err(refusal) => refusal.number(),
    }
}
