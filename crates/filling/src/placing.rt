// The branches of one record are put into a table.
ghost use Rattle.std.specs.Prelude.{◌≡◌, ◌+◌, ◌≤◌, length};
ghost use Rattle.records.specs.Held.{branches as branches_in};
ghost use Rattle.filling.specs.Placed.{laid};

use records::{Branch, branches};

// The branches of a choice, from the first place on.
pub(crate) fn put_branches(table: &mut [Branch], first: usize, entries: &[u8])
    requires { first + length (branches_in entries.now) ≤ length table.old }
    ensures { table.new ≡ laid table.old first (branches_in entries.now) }
{
    // Tried: a `zip` with the rows' `iter_mut`; a proof knows no row of the table once that borrow is over, so what it ensures stayed open.
    for (i, branch) in branches(entries).enumerate() {
        table[first + i] = branch;
    }
}
