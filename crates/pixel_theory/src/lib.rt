// What pixels mean, and the proof that they keep the laws of kinds.
#![tactic(auto)]

ghost use Rattle.kind.specs.Meaning.{Laws};
ghost use Rattle.pixel_theory.specs.Kind.{pixel};

// Pixels keep every law of kinds. Each kind has its own such function, since that is its theorem and no code is shared.
pub fn pixels_keep_the_laws()
    ensures laws { Laws pixel }
{
    // Nothing to run: the contract is the theorem.
}
