// One row of the set-up's part of an image. Each kind has a function of its own here, as do requests in `states`: an image is
// read in every call, and so each number goes from its bytes straight to its field.
ghost use Rattle.std.specs.Prelude.{◌≡◌};
ghost use Rattle.number.specs.Number.{read_number};
ghost use Rattle.image.specs.Read.{number_in};
ghost use Rattle.image.specs.inner.Rows.{read_level, read_slave};

use frame::{LevelRow, SlaveRow};
use number::Fault;
use refusal::Refusal;

// A number of which the shape has room for low to high only. (`numbers::Source` would ask at each number what it is read from.)
#[tactic(auto, unfolding(numbers::specs::Numbers::number_between))]
pub(crate) fn number_in(bytes: &[u8], low: u32, high: u32, at: usize) -> Result<(u32, usize), Fault>
    ensures { result ≡ number_in (read_number bytes.now) low high at }
{
    let (v, next) = number::read_number(bytes, at)?;
    if (low <= v) & (v <= high) {
        return Ok((v, next));
    }
    let why = Refusal::Malformed;
    Err(Fault { why, place: at })
}

// The level row at a place.
pub(crate) fn read_level(bytes: &[u8], at: usize) -> Result<(LevelRow, usize), Fault>
    ensures { result ≡ read_level (read_number bytes.now) at }
{
    let (level, second) = number::read_number(bytes, at)?;
    let (width, third) = number::read_number(bytes, second)?;
    let (options, end) = number::read_number(bytes, third)?;
    let row = LevelRow {
        level,
        width,
        options,
    };
    Ok((row, end))
}

// The slave row at a place.
pub(crate) fn read_slave(bytes: &[u8], at: usize) -> Result<(SlaveRow, usize), Fault>
    ensures { result ≡ read_slave (read_number bytes.now) at }
{
    let (space, second) = number::read_number(bytes, at)?;
    let (base, third) = number::read_number(bytes, second)?;
    let (length, fourth) = number::read_number(bytes, third)?;
    let (port, fifth) = number::read_number(bytes, fourth)?;
    let (time, end) = number::read_number(bytes, fifth)?;
    let row = SlaveRow {
        space,
        base,
        length,
        port,
        time,
    };
    Ok((row, end))
}
