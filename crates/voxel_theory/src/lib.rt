// What voxels mean, and the proof that they keep the laws of kinds.
#![tactic(auto)]

ghost use Rattle.kind.specs.Meaning.{Laws};
ghost use Rattle.voxel_theory.specs.Voxel.{voxel, Small};

// The triangles of a voxel close up against the segments of its faces, and voxels keep the other laws of kinds; a voxel has at most eighteen vertices and twenty-two triangles. Each kind has its own such function, since that is its theorem and no code is shared.
pub fn voxels_keep_the_laws()
    ensures laws { Laws voxel }
    ensures small { Small }
{
    // Nothing to run: the contract is the theorem.
}
