// One number of a sheet (document 01, "The job sheet"): one to five groups of seven bits, lowest first; the top bit of a
// byte says that another follows; only the shortest form is valid.
#![tactic(auto)]

ghost use Rattle.std.specs.Prelude.{◌≡◌, ◌+◌, ◌≤◌, ◌<◌, drop, length, leb};
ghost use Rattle.std.proofs.lemmas.List.Edits.{sets};
ghost use Rattle.number.specs.Number.{groups, below, read_number, bytes_of, write_number, write_number_after, number_size};

use refusal::Refusal;

// Why something can't be read, and the place where it stands.
#[derive(Clone, Copy)]
pub struct Fault {
    pub why: Refusal,
    pub place: usize,
}

// The groups after the first of a number that starts at `start`; `first` is the value of its first group.
fn more_groups(s: &[u8], start: usize, first: u32) -> Result<(u32, usize), Fault>
    requires start_in_bounds { start < length s.now }
    requires first_bound { first < 128 }
    ensures { result ≡ below start first (groups start 3 (start + 1) (drop (start + 1) s.now)) }
{
    let not_shortest = Fault {
        why: Refusal::BadNumber,
        place: start,
    };
    // the value of the groups passed, and how many times the next one counts
    let mut low = first;
    let mut weight: u32 = 128;
    for at in start + 1..s.len() {
        let byte = u32::from(s[at]);
        // the fifth byte is the last, and has room for four bits
        if weight == 268435456 {
            if (15 < byte) | (byte == 0) {
                return Err(not_shortest);
            }
            return Ok((low + weight * byte, at + 1));
        }
        if byte < 128 {
            if byte == 0 {
                return Err(not_shortest);
            }
            return Ok((low + weight * byte, at + 1));
        }
        low += weight * (byte - 128);
        weight *= 128;
    }
    Err(Fault {
        why: Refusal::SheetEnds,
        place: start,
    })
}

// The value of the number at a place, and the place past it; or why there is none, and the place where it starts.
pub fn read_number(s: &[u8], at: usize) -> Result<(u32, usize), Fault>
    ensures { result ≡ read_number s.now at }
{
    if s.len() <= at {
        return Err(Fault {
            why: Refusal::SheetEnds,
            place: at,
        });
    }
    let byte = u32::from(s[at]);
    // most numbers have one byte
    if byte < 128 {
        return Ok((byte, at + 1));
    }
    more_groups(s, at, byte - 128)
}

// How many bytes a number takes.
pub fn number_size(v: u32) -> usize
    ensures { result ≡ number_size v }
{
    if v < 128 {
        1
    } else if v < 16384 {
        2
    } else if v < 2097152 {
        3
    } else if v < 268435456 {
        4
    } else {
        5
    }
}

// Writes a number's bytes where there is room for them, and gives the place past them.
fn put_number(out: &mut [u8], at: usize, v: u32) -> usize
    requires { at + length (bytes_of v) ≤ length out.old }
    ensures value { result ≡ at + length (bytes_of v) }
    ensures out_after { out.new ≡ sets out.old at (bytes_of v) }
{
    let mut i = at;
    let mut rest = v;
    while 128 <= rest {
        out[i] = (128 + rest % 128) as u8;
        rest /= 128;
        i += 1;
    }
    out[i] = rest as u8;
    i + 1
}

// Whether so much room is enough for a number. None has more than five bytes: they are counted only where there is less.
fn has_room(room: usize, v: u32) -> bool
    ensures { result ≡ leb (number_size v) room }
{
    if 5 <= room {
        return true;
    }
    number_size(v) <= room
}

// Writes a number from a place on, whole or not at all, and gives the place past it.
pub fn write_number(out: &mut [u8], at: usize, v: u32) -> Result<usize, Refusal>
    ensures value { result ≡ write_number out.old at v }
    ensures out_after { out.new ≡ write_number_after out.old at v }
{
    // most numbers have one byte
    if v < 128 {
        if at < out.len() {
            out[at] = v as u8;
            return Ok(at + 1);
        }
        return Err(Refusal::NoRoom);
    }
    if out.len() < at {
        return Err(Refusal::NoRoom);
    }
    if has_room(out.len() - at, v) {
        return Ok(put_number(out, at, v));
    }
    Err(Refusal::NoRoom)
}
