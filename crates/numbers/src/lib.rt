// Numbers in a row (document 01, "The job sheet": a sheet is "a row of numbers"), from their bytes or from a list. Whoever
// judges such a row reads it through one source, and so judges bytes and a list alike.
#![tactic(auto)]

ghost use Rattle.std.specs.Prelude.{◌≡◌, ◌+◌, ◌≤◌, length, leb};
ghost use Rattle.std.proofs.lemmas.List.Edits.{sets};
ghost use Rattle.numbers.specs.Numbers.{number_at, length_of, number_between, numbers_at};
ghost use Rattle.numbers.specs.Numbers.{numbers_of, all_bytes, count_numbers, bytes_size, copy_numbers, copy_numbers_after, write_numbers, write_numbers_after};

use basics::NUMBERS_MOST;
use number::Fault;
use refusal::Refusal;

// Where a row of numbers stands: in its bytes, or in the list of them.
#[derive(Clone, Copy)]
pub enum Source<'a> {
    Bytes(&'a [u8]),
    List(&'a [u32]),
}

// Up to six numbers, as far as they can be read, and the places after them hold 0; and the place after them, or the first fault. A Result of both would not have
// the numbers before a fault, which `numbers_at` promises.
#[derive(Clone, Copy)]
pub struct Taken {
    pub values: [u32; NUMBERS_MOST],
    pub part: Result<usize, Fault>,
}

impl Source<'_> {
    // The number at a place of the bytes, or at an index of the list.
    #[tactic(auto, unfolding(crate::specs::Numbers::list_at))]
    pub fn number_at(self, at: usize) -> Result<(u32, usize), Fault>
        ensures { result ≡ number_at self.entry at }
    {
        match self {
            Source::Bytes(bytes) => number::read_number(bytes, at),
            Source::List(list) => {
                let Some(&v) = list.get(at) else {
                    return Err(Fault {
                        why: Refusal::SheetEnds,
                        place: at,
                    });
                };
                Ok((v, at + 1))
            }
        }
    }

    // How long the row is, in bytes or in numbers.
    pub fn length_of(self) -> usize
        ensures { result ≡ length_of self.entry }
    {
        match self {
            Source::Bytes(bytes) => bytes.len(),
            Source::List(list) => list.len(),
        }
    }

    // A number that has to be from low to high.
    #[tactic(auto, unfolding(crate::specs::Numbers::number_between))]
    pub fn number_between(
        self,
        low: u32,
        high: u32,
        why: Refusal,
        at: usize,
    ) -> Result<(u32, usize), Fault>
        ensures { result ≡ number_between (number_at self.entry) low high why at }
    {
        let (v, next) = self.number_at(at)?;
        if (low <= v) & (v <= high) {
            return Ok((v, next));
        }
        Err(Fault { why, place: at })
    }

    // The n numbers from a place on; of more than six the first six.
    pub fn numbers_at(self, n: usize, at: usize) -> Taken
        ensures { result ≡ numbers_at (number_at self.entry) n at }
    {
        let mut values = [0u32; NUMBERS_MOST];
        let mut place = at;
        for i in 0..n.min(NUMBERS_MOST) {
            match self.number_at(place) {
                Ok((v, next)) => {
                    values[i] = v;
                    place = next;
                }
                Err(fault) => {
                    let part = Err(fault);
                    return Taken { values, part };
                }
            }
        }
        let part = Ok(place);
        Taken { values, part }
    }
}

// How many numbers the bytes hold, up to the end or to a fault.
pub fn count_numbers(bytes: &[u8]) -> usize
    ensures { result ≡ count_numbers bytes.now }
{
    let mut count: usize = 0;
    let mut at: usize = 0;
    while let Ok((_, next)) = number::read_number(bytes, at) {
        at = next;
        count += 1;
    }
    count
}

// Puts the numbers of the bytes at the start of out, where there is room for them.
fn put_copy(bytes: &[u8], out: &mut [u32])
    requires { length (numbers_of bytes.now) ≤ length out.old }
    ensures { out.new ≡ sets out.old 0 (numbers_of bytes.now) }
{
    let mut i: usize = 0;
    let mut at: usize = 0;
    while let Ok((v, next)) = number::read_number(bytes, at) {
        out[i] = v;
        i += 1;
        at = next;
    }
}

// Copies the numbers of the bytes to the start of out, all or none, and gives the index past them.
pub fn copy_numbers(bytes: &[u8], out: &mut [u32]) -> Result<usize, Refusal>
    ensures value { result ≡ copy_numbers bytes.now out.old }
    ensures out_after { out.new ≡ copy_numbers_after bytes.now out.old }
{
    let count = count_numbers(bytes);
    if out.len() < count {
        return Err(Refusal::NoRoom);
    }
    put_copy(bytes, out);
    Ok(count)
}

// How many bytes a list of numbers takes.
pub fn bytes_size(list: &[u32]) -> usize
    ensures { result ≡ bytes_size list.now }
{
    let mut sum: usize = 0;
    for &v in list {
        sum += number::number_size(v);
    }
    sum
}

// Whether so much room is enough for the bytes of a list of numbers. A number has five at most: sizes are added up only where there is less for each.
fn have_room(list: &[u32], room: usize) -> bool
    ensures { result ≡ leb (length (all_bytes list.now)) room }
{
    if list.len() <= room / 5 {
        return true;
    }
    bytes_size(list) <= room
}

// Puts the bytes of a list of numbers from a place of out on, where there is room for them, and gives the place past them.
fn put_numbers(list: &[u32], out: &mut [u8], at: usize) -> usize
    requires { at + length (all_bytes list.now) ≤ length out.old }
    ensures value { result ≡ at + length (all_bytes list.now) }
    ensures out_after { out.new ≡ sets out.old at (all_bytes list.now) }
{
    let mut place = at;
    for &v in list {
        // there is room for each
        place = number::write_number(out, place, v).unwrap();
    }
    place
}

// Writes the bytes of a list of numbers from a place of out on, all or none, and gives the place past them.
pub fn write_numbers(list: &[u32], out: &mut [u8], at: usize) -> Result<usize, Refusal>
    ensures value { result ≡ write_numbers list.now out.old at }
    ensures out_after { out.new ≡ write_numbers_after list.now out.old at }
{
    if out.len() < at {
        return Err(Refusal::NoRoom);
    }
    if have_room(list, out.len() - at) {
        return Ok(put_numbers(list, out, at));
    }
    Err(Refusal::NoRoom)
}
