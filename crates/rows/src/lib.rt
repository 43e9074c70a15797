// The worked rows: examples that the rules decide, shown by one proof over the whole list.
#![tactic(auto)]

ghost use Rattle.std.specs.Prelude.{◌≡◌, length};
ghost use Rattle.rows.specs.Rows.{rows, RowsStand};

// How many worked rows there are; the rules give what each of them says.
pub fn rows_stand() -> usize
    ensures answer { result ≡ length rows }
    ensures stand { RowsStand }
{
    10
}
