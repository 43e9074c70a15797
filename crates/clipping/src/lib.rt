// The theory of clipping: how the segments of a voxel's faces make triangles. There is nothing to run here: the contracts state the theorems.
#![tactic(auto)]

ghost use Rattle.clipping.specs.Laws.{Clips, Voxels, Second, Shells};

// The clipping of every tame set of segments ends, and its triangles fill the set.
pub fn clipping_stands()
    ensures clips { Clips }
    ensures second { Second }
{
    // Nothing to run: the contract is the theorem.
}

// The segments of every voxel off the level are a tame set, and its triangles fill them.
pub fn voxels_stand()
    ensures voxels { Voxels }
    ensures shells { Shells }
{
    // Nothing to run: the contract is the theorem.
}
