// How many slots suffice for the voxels of a block, and for its pixels.
#![tactic(auto)]

ghost use Rattle.room.specs.Room.{PixelsHaveRoom, VoxelsHaveRoom};

// With one cell slot, 18 vertex slots and 22 piece slots for each voxel of the block no take is declined for want of slots.
pub fn voxels_have_room()
    ensures room { VoxelsHaveRoom }
{
    // Nothing to run: the contract is the theorem.
}

// A function beside that of voxels, since each is its theorem and no code is shared.
// For pixels one cell slot, 5 vertex slots and 4 piece slots each suffice.
pub fn pixels_have_room()
    ensures room { PixelsHaveRoom }
{
    // Nothing to run: the contract is the theorem.
}
