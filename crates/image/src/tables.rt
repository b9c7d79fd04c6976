// The set-up's part of an image. Each kind of row has a loop of its own here, as only its own table is then carried: an image
// is read in every call.
ghost use Rattle.std.specs.Prelude.{◌≡◌, ◌≤◌};
ghost use Rattle.basics.specs.Limits.{rows_most};
ghost use Rattle.number.specs.Number.{read_number};
ghost use Rattle.frame.specs.declared.LevelRows.{LevelRows};
ghost use Rattle.frame.specs.Kind.{no_rows, with_levels, with_slaves, with_count};
ghost use Rattle.frame.specs.declared.RowKind.TheVariants.{Levels, Slaves};
ghost use Rattle.image.specs.Read.{rows_at, counted_at, tables_at, setup_at};
ghost use Rattle.image.specs.inner.Rows.{made};

use crate::rows::{number_in, read_level, read_slave};
use crate::{EDITION, LAYOUT};
use basics::{ROWS_MOST, ROWS_MOST_U32};
use frame::{LevelRows, NO_LEVEL, NO_SLAVE, Setup, SlaveRows};
use number::Fault;

// The level rows from a place on.
fn read_levels(bytes: &[u8], count: usize, at: usize) -> Result<(LevelRows, usize), Fault>
    requires { count ≤ rows_most }
    ensures { made (with_levels no_rows) result
        ≡ rows_at Levels (read_number bytes.now) count 0 (with_count no_rows Levels count) at }
{
    let mut levels = LevelRows {
        rows: [NO_LEVEL; ROWS_MOST],
        count,
    };
    let mut place = at;
    for i in 0..count {
        let (row, next) = read_level(bytes, place)?;
        levels.rows[i] = row;
        place = next;
    }
    Ok((levels, place))
}

// The slave rows from a place on.
fn read_slaves(bytes: &[u8], count: usize, at: usize) -> Result<(SlaveRows, usize), Fault>
    requires { count ≤ rows_most }
    ensures { (levels : LevelRows) → made (with_slaves (with_levels no_rows levels)) result
        ≡ rows_at Slaves (read_number bytes.now) count 0 (with_count (with_levels no_rows levels) Slaves count) at }
{
    let mut slaves = SlaveRows {
        rows: [NO_SLAVE; ROWS_MOST],
        count,
    };
    let mut place = at;
    for i in 0..count {
        let (row, next) = read_slave(bytes, place)?;
        slaves.rows[i] = row;
        place = next;
    }
    Ok((slaves, place))
}

// The count of the level rows, and these rows.
#[tactic(auto, unfolding(crate::specs::Read::counted_at))]
fn counted_levels(bytes: &[u8], at: usize) -> Result<(LevelRows, usize), Fault>
    ensures { made (with_levels no_rows) result ≡ counted_at Levels (read_number bytes.now) no_rows at }
{
    let (n, next) = number_in(bytes, 0, ROWS_MOST_U32, at)?;
    read_levels(bytes, n as usize, next)
}

// The count of the slave rows, and these rows.
#[tactic(auto, unfolding(crate::specs::Read::counted_at))]
fn counted_slaves(bytes: &[u8], at: usize) -> Result<(SlaveRows, usize), Fault>
    ensures { (levels : LevelRows) → made (with_slaves (with_levels no_rows levels)) result
        ≡ counted_at Slaves (read_number bytes.now) (with_levels no_rows levels) at }
{
    let (n, next) = number_in(bytes, 0, ROWS_MOST_U32, at)?;
    read_slaves(bytes, n as usize, next)
}

// The rows of both kinds, and the length of the master store.
#[tactic(auto, unfolding(crate::specs::Read::tables_at))]
fn read_tables(bytes: &[u8], at: usize) -> Result<(Setup, usize), Fault>
    ensures { result ≡ tables_at (read_number bytes.now) at }
{
    let (levels, second) = counted_levels(bytes, at)?;
    let (slaves, third) = counted_slaves(bytes, second)?;
    let (master, end) = number::read_number(bytes, third)?;
    let setup = Setup {
        levels,
        slaves,
        master,
    };
    Ok((setup, end))
}

// The set-up's part of an image: the layout number, a sheet's head from its edition on, and the length of the master store.
#[tactic(auto, unfolding(crate::specs::Read::setup_at, crate::specs::Read::head_at))]
pub(crate) fn read_setup_at(bytes: &[u8]) -> Result<(Setup, usize), Fault>
    ensures { result ≡ setup_at (read_number bytes.now) }
{
    let (_, first) = number_in(bytes, LAYOUT, LAYOUT, 0)?;
    let (_, second) = number_in(bytes, EDITION, EDITION, first)?;
    read_tables(bytes, second)
}
