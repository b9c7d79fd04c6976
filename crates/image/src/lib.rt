// The image (document 02, CR 1): a set-up and a channel as one row of seven-bit numbers, read and written. Here the shape of
// an image is judged (18); whether what was read makes sense (9) is judged by the call that is handed it.
// `tables` reads the set-up's part, by `rows`, and `states` the channel's; `lists` has the set-up's numbers, and `writing` lays the
// channel's bytes.
#![tactic(auto)]

mod lists;
mod rows;
mod states;
mod tables;
mod writing;

ghost use Rattle.std.specs.Prelude.{◌≡◌, ◌≤◌};
ghost use Rattle.basics.specs.Limits.{rows_most};
ghost use Rattle.number.specs.Number.{whole_at, whole_after};
ghost use Rattle.frame.specs.Kind.{row_count};
ghost use Rattle.frame.specs.declared.RowKind.TheVariants.{Levels, Slaves};
ghost use Rattle.image.specs.Layout.{image_bytes};
ghost use Rattle.image.specs.Image.{read_setup, read_channel, read_image, write_channel, write_channel_after};
ghost use Rattle.image.specs.Image.{write_image, write_image_after, head_read, read_head};

use channel::Channel;
use frame::Setup;
use lists::list_setup;
use number::Fault;
use refusal::Refusal;
use states::{no_channel, read_channel_at};
use tables::read_setup_at;
use writing::{put_bytes, put_channel, put_head, put_whole};

// The layout's own number, and the edition of the head in an image.
pub const LAYOUT: u32 = 2;

pub const EDITION: u32 = 1;

// The longest image there is.
pub const IMAGE_MOST: usize = 410;

// The most numbers of a head and of the set-up's part, and the bytes that that part and the channel's have at most: a row of so many is filled and then cut, as
// there is no heap.
const HEAD_NUMBERS: usize = 131;

const SETUP_NUMBERS: usize = 133;

const SETUP_BYTES: usize = 665;

const CHANNEL_BYTES: usize = 430;

// A channel that was read, as far as that came, and the place after it or the first fault. A Result of both would not have the channel before a fault, which
// `read_channel` promises.
#[derive(Clone, Copy)]
pub struct ChannelRead {
    pub channel: Channel,
    pub part: Result<usize, Fault>,
}

// The set-up of the image in the first n bytes, and the place where it ends.
#[tactic(auto, unfolding(crate::specs::Image::read_setup))]
pub fn read_setup(bytes: &[u8], n: usize) -> Result<(Setup, usize), Fault>
    ensures { result ≡ read_setup bytes.now n }
{
    if bytes.len() < n {
        let why = Refusal::Malformed;
        return Err(Fault { why, place: 0 });
    }
    read_setup_at(&bytes[..n])
}

// The channel of the image in the first n bytes, from the place where its set-up ends.
#[tactic(auto, unfolding(crate::specs::Image::read_channel))]
pub fn read_channel(bytes: &[u8], n: usize, at: usize) -> ChannelRead
    ensures { result ≡ read_channel bytes.now n at }
{
    if bytes.len() < n {
        let why = Refusal::Malformed;
        return no_channel(Fault { why, place: 0 });
    }
    read_channel_at(&bytes[..n], at)
}

// What the image in the first n bytes says.
#[tactic(auto, unfolding(crate::specs::Image::read_image))]
pub fn read_image(bytes: &[u8], n: usize) -> Result<(Setup, Channel), Refusal>
    ensures { result ≡ read_image bytes.now n }
{
    let Ok((setup, start)) = read_setup(bytes, n) else {
        return Err(Refusal::Malformed);
    };
    let rest = read_channel(bytes, n, start);
    let Ok(_) = rest.part else {
        return Err(Refusal::Malformed);
    };
    Ok((setup, rest.channel))
}

// Writes a channel's part of an image from a place on, whole or not at all, and gives the place past it.
pub fn write_channel(channel: Channel, out: &mut [u8], at: usize) -> Result<usize, Refusal>
    ensures value { result ≡ write_channel channel out.old at }
    ensures out_after { out.new ≡ write_channel_after channel out.old at }
{
    let mut row = [0u8; CHANNEL_BYTES];
    let count = put_channel(&mut row, 0, channel);
    put_whole(&row[..count], out, at)
}

// Writes the image of a set-up and a channel that meet no 9: the channel's part first, which is whole or not at all, and then what stands before it.
fn put_image(setup: Setup, channel: Channel, out: &mut [u8]) -> Result<usize, Refusal>
    requires { (row_count setup Levels ≤ rows_most) × (row_count setup Slaves ≤ rows_most) }
    ensures value { result ≡ whole_at out.old 0 (image_bytes setup channel) }
    ensures out_after { out.new ≡ whole_after out.old 0 (image_bytes setup channel) }
{
    let mut values = [0u32; SETUP_NUMBERS];
    let mut row = [0u8; SETUP_BYTES];
    let count = list_setup(&mut values, setup);
    // there is room for it
    let start = numbers::write_numbers(&values[..count], &mut row, 0).unwrap();
    let end = write_channel(channel, out, start)?;
    put_bytes(&row[..start], out, 0);
    Ok(end)
}

// Writes an image at the start, whole or not at all, and gives the place past it.
#[tactic(auto, unfolding(crate::specs::Image::write_image, crate::specs::Image::write_image_after, sound::specs::Sound::sound_store))]
pub fn write_image(setup: Setup, channel: Channel, out: &mut [u8]) -> Result<usize, Refusal>
    ensures value { result ≡ write_image setup channel out.old }
    ensures out_after { out.new ≡ write_image_after setup channel out.old }
{
    let Some(_) = sound::sound_store(setup, channel) else {
        return Err(Refusal::Unsound);
    };
    put_image(setup, channel, out)
}

// The set-up's part of an image in bytes that are nothing more, and the channel after set-up.
#[tactic(auto, unfolding(crate::specs::Image::head_read))]
fn head_read(bytes: &[u8]) -> Result<(Setup, Channel), Refusal>
    ensures { result ≡ head_read bytes.now }
{
    let Ok((setup, end)) = read_setup(bytes, bytes.len()) else {
        return Err(Refusal::Malformed);
    };
    if end < bytes.len() {
        return Err(Refusal::Malformed);
    }
    Ok((setup, channel::fresh_channel()))
}

// The set-up of a sheet's head, given as the list of its numbers, and the channel after set-up. A head's list has no more
// numbers than sixteen rows of each kind make.
pub fn read_head(list: &[u32], master: u32) -> Result<(Setup, Channel), Refusal>
    ensures { result ≡ read_head list.now master }
{
    if HEAD_NUMBERS < list.len() {
        return Err(Refusal::Malformed);
    }
    let mut bytes = [0u8; SETUP_BYTES];
    let length = put_head(&mut bytes, list, master);
    head_read(&bytes[..length])
}
