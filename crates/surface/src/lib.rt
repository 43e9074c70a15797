// What is true of every ledger, whatever calls led to it.
#![tactic(auto)]

ghost use Rattle.surface.specs.Changes.{Changes, Counted, Resent, Undone};
ghost use Rattle.surface.specs.Kept.{AlwaysKept};
ghost use Rattle.surface.specs.Room.{BoxBounds, EnoughRoom};
ghost use Rattle.surface.specs.Surface.{OrderFree, Theorem};

pub mod lists;

// Where the accepted takes read one block, the pieces close up to the border of the held cells, and the vertices are theirs.
pub fn surface_stands()
    ensures stands { Theorem }
    ensures order_free { OrderFree }
{
    // Nothing to run: the contract is the theorem.
}

// Whichever blocks were read, nothing stands twice, and the pieces name the listed vertices and no others.
pub fn lists_keep()
    ensures kept { AlwaysKept }
{
    // Nothing to run: the contract is the theorem.
}

// Takes and withdrawals: what they answer is what they do, a cell that is sent again alters nothing, and a withdrawal undoes a take.
pub fn calls_answer()
    ensures changed { Changes }
    ensures counted { Counted }
    ensures resent { Resent }
    ensures undone { Undone }
{
    // Nothing to run: the contract is the theorem.
}

// With slots for every cell of the block no take is declined for want of slots.
pub fn room_suffices()
    ensures room { EnoughRoom }
    ensures cells { BoxBounds }
{
    // Nothing to run: the contract is the theorem.
}
