// The job sheet (document 01, "The job sheet"): its reader, from bytes to the list of its numbers, and its writer, from
// the list to bytes. One judge serves both: it reads numbers from the bytes or from the list.
#![tactic(auto)]

ghost use Rattle.std.specs.Prelude.{◌≡◌, ◌≤◌, length};
ghost use Rattle.basics.specs.Limits.{rows_most};
ghost use Rattle.numbers.specs.Numbers.{number_at, length_of};
ghost use Rattle.sheet.specs.Sheet.{bad_rows, rows_from, counted_rows, head, head_of};
ghost use Rattle.sheet.specs.Sheet.{step_count, event, events, counted_events, sheet_end, body, sheet};
ghost use Rattle.sheet.specs.Sheet.{read_sheet, read_sheet_after, write_sheet, write_sheet_after};

use basics::{EVENTS_MOST, ROWS_MOST_U32, STEPS_MOST};
use frame::{RowKind, Setup};
use number::Fault;
use numbers::Source;
use refusal::Refusal;

// Rows that were read: the set-up with them, as far as that came, and the place after them or the first fault. A Result of both would not have the set-up
// before a fault, which `head_of` promises and `sheetlist::setup_of` reads.
#[derive(Clone, Copy)]
pub struct RowsRead {
    pub setup: Setup,
    pub part: Result<usize, Fault>,
}

// What refuses a row of a kind, or the count of such rows: a match, as frame has no word of a sheet's refusals.
fn bad_rows(kind: RowKind) -> Refusal
    ensures { result ≡ bad_rows kind }
{
    match kind {
        RowKind::Levels => Refusal::BadLevels,
        RowKind::Slaves => Refusal::BadSlaves,
    }
}

// The rows of a kind from a place on. A row is put into the set-up when all its numbers are read, and then tested.
fn read_rows(source: Source, kind: RowKind, first: Setup, count: usize, at: usize) -> RowsRead
    requires { count ≤ rows_most }
    ensures { result ≡ rows_from kind (number_at source.entry) count 0 first at }
{
    let size = frame::row_size(kind);
    let mut setup = first;
    let mut place = at;
    for i in 0..count {
        let row = source.numbers_at(size, place);
        let Ok(next) = row.part else {
            let part = row.part;
            return RowsRead { setup, part };
        };
        setup = frame::put_row(setup, kind, i, row.values);
        if !frame::row_fits(setup, kind, i) {
            let why = bad_rows(kind);
            let part = Err(Fault { why, place });
            return RowsRead { setup, part };
        }
        place = next;
    }
    let part = Ok(place);
    RowsRead { setup, part }
}

// The count of rows of a kind, and the rows.
#[tactic(auto, unfolding(crate::specs::Sheet::counted_rows))]
fn counted_rows(source: Source, kind: RowKind, setup: Setup, at: usize) -> RowsRead
    ensures { result ≡ counted_rows kind (number_at source.entry) setup at }
{
    match source.number_between(1, ROWS_MOST_U32, bad_rows(kind), at) {
        Ok((n, next)) => {
            let count = n as usize;
            let first = frame::with_count(setup, kind, count);
            read_rows(source, kind, first, count, next)
        }
        Err(fault) => {
            let part = Err(fault);
            RowsRead { setup, part }
        }
    }
}

// The rows of both kinds.
#[tactic(auto, unfolding(crate::specs::Sheet::head))]
fn read_head(source: Source, at: usize) -> RowsRead
    ensures { result ≡ head (number_at source.entry) at }
{
    let levels = counted_rows(source, RowKind::Levels, frame::no_rows(), at);
    let Ok(second) = levels.part else {
        return levels;
    };
    counted_rows(source, RowKind::Slaves, levels.setup, second)
}

// The rows of a sheet that is given as the list of its numbers.
#[tactic(auto, unfolding(crate::specs::Sheet::head_of))]
pub fn head_of(list: &[u32]) -> RowsRead
    ensures { result ≡ head_of list.now }
{
    read_head(Source::List(list), 1)
}

// One event: its kind, and then a step count or the six numbers of a post.
#[tactic(auto, unfolding(crate::specs::Sheet::event, numbers::specs::Numbers::numbers_at))]
fn judge_event(source: Source, at: usize) -> Result<usize, Fault>
    ensures { result ≡ event (number_at source.entry) at }
{
    let (kind, next) = source.number_between(0, 1, Refusal::BadEvents, at)?;
    if kind == 0 {
        return judge_step_count(source, next);
    }
    source.numbers_at(6, next).part
}

// A step count.
#[tactic(auto, unfolding(crate::specs::Sheet::step_count))]
fn judge_step_count(source: Source, at: usize) -> Result<usize, Fault>
    ensures { result ≡ step_count (number_at source.entry) at }
{
    let (_, next) = source.number_between(1, STEPS_MOST, Refusal::BadEvents, at)?;
    Ok(next)
}

// The n events from a place on.
fn judge_events(source: Source, n: usize, at: usize) -> Result<usize, Fault>
    ensures { result ≡ events (number_at source.entry) n at }
{
    let mut place = at;
    for _ in 0..n {
        place = judge_event(source, place)?;
    }
    Ok(place)
}

// The event count and the events.
#[tactic(auto, unfolding(crate::specs::Sheet::counted_events))]
fn judge_counted_events(source: Source, at: usize) -> Result<usize, Fault>
    ensures { result ≡ counted_events (number_at source.entry) at }
{
    let (n, next) = source.number_between(0, EVENTS_MOST, Refusal::BadEvents, at)?;
    judge_events(source, n as usize, next)
}

// The end of the sheet: nothing follows.
fn judge_end(source: Source, at: usize) -> Result<usize, Fault>
    ensures { result ≡ sheet_end (length_of source.entry) at }
{
    if at < source.length_of() {
        return Err(Fault {
            why: Refusal::Follows,
            place: at,
        });
    }
    Ok(at)
}

// The rows and events after the edition, to the end.
#[tactic(auto, unfolding(crate::specs::Sheet::body))]
fn judge_body(source: Source, at: usize) -> Result<usize, Fault>
    ensures { result ≡ body (number_at source.entry) (length_of source.entry) at }
{
    let third = read_head(source, at).part?;
    let end = judge_counted_events(source, third)?;
    judge_end(source, end)
}

// A whole sheet.
#[tactic(auto, unfolding(crate::specs::Sheet::sheet))]
fn judge(source: Source) -> Result<usize, Fault>
    ensures { result ≡ sheet (number_at source.entry) (length_of source.entry) }
{
    let (_, first) = source.number_between(1, 1, Refusal::BadEdition, 0)?;
    judge_body(source, first)
}

// Reads the bytes of a sheet into out, as the list of its numbers, and gives how many they are.
#[tactic(auto, unfolding(crate::specs::Sheet::read_sheet, crate::specs::Sheet::read_sheet_after))]
pub fn read_sheet(bytes: &[u8], out: &mut [u32]) -> Result<usize, Fault>
    ensures value { result ≡ read_sheet bytes.now (length out.old) }
    ensures out_after { out.new ≡ read_sheet_after bytes.now out.old }
{
    judge(Source::Bytes(bytes))?;
    numbers::copy_numbers(bytes, out).map_err(|why| Fault { why, place: 0 })
}

// Writes a sheet, given as the list of its numbers, as bytes into out, and gives how many they are.
#[tactic(auto, unfolding(crate::specs::Sheet::write_sheet, crate::specs::Sheet::write_sheet_after))]
pub fn write_sheet(list: &[u32], out: &mut [u8]) -> Result<usize, Fault>
    ensures value { result ≡ write_sheet list.now (length out.old) }
    ensures out_after { out.new ≡ write_sheet_after list.now out.old }
{
    judge(Source::List(list))?;
    numbers::write_numbers(list, out, 0).map_err(|why| Fault { why, place: 0 })
}
