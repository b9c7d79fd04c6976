// The numbers of an image's set-up, laid into a list that is lent.
ghost use Rattle.std.specs.Prelude.{◌≡◌, ◌+◌, ◌*◌, ◌≤◌, length};
ghost use Rattle.std.proofs.lemmas.List.Edits.{sets};
ghost use Rattle.basics.specs.Limits.{rows_most};
ghost use Rattle.frame.specs.Kind.{row_count};
ghost use Rattle.frame.specs.declared.RowKind.TheVariants.{Levels, Slaves};
ghost use Rattle.image.specs.Layout.{rows_numbers, setup_numbers};

use crate::{EDITION, LAYOUT};
use frame::{RowKind, Setup};

// Lays the rows of a kind from a place on, and gives the place past them. No row has more than five numbers. Both kinds stand here, one below the other, so that
// their order can be read off.
fn list_rows(values: &mut [u32], at: usize, setup: Setup, kind: RowKind, count: usize) -> usize
    requires { (count ≤ rows_most) × (at + 5 * rows_most ≤ length values.old) }
    ensures value { result ≡ at + length (rows_numbers setup kind count 0) }
    ensures values_after { values.new ≡ sets values.old at (rows_numbers setup kind count 0) }
{
    let mut place = at;
    for i in 0..count {
        match kind {
            RowKind::Levels => {
                let row = setup.levels.rows[i];
                values[place] = row.level;
                values[place + 1] = row.width;
                values[place + 2] = row.options;
                place += 3;
            }
            RowKind::Slaves => {
                let row = setup.slaves.rows[i];
                values[place] = row.space;
                values[place + 1] = row.base;
                values[place + 2] = row.length;
                values[place + 3] = row.port;
                values[place + 4] = row.time;
                place += 5;
            }
        }
    }
    place
}

// Lays the set-up's part of an image at the start.
pub(crate) fn list_setup(values: &mut [u32], setup: Setup) -> usize
    requires { (row_count setup Levels ≤ rows_most) × (row_count setup Slaves ≤ rows_most) × (5 + 8 * rows_most ≤ length values.old) }
    ensures value { result ≡ length (setup_numbers setup) }
    ensures values_after { values.new ≡ sets values.old 0 (setup_numbers setup) }
{
    values[0] = LAYOUT;
    values[1] = EDITION;
    values[2] = setup.levels.count as u32;
    let mid = list_rows(values, 3, setup, RowKind::Levels, setup.levels.count);
    values[mid] = setup.slaves.count as u32;
    let end = list_rows(values, mid + 1, setup, RowKind::Slaves, setup.slaves.count);
    values[end] = setup.master;
    end + 1
}
