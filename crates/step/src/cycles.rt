// One cycle of an owner (document 01, "One step", "Granted, with a request"): its bytes, what is left, how it ends, and the
// moving of its bytes. Every route here comes from the rows of a set-up, so that W is 2 or 4 and P is 1, 2 or 4: no division runs.
ghost use Rattle.std.specs.Prelude.{◌≡◌, true, ◌+◌, ◌%◌, ◌≤◌, ◌<◌, length, take, drop};
ghost use Rattle.std.proofs.Math.Seq.{paste};
ghost use Rattle.basics.specs.Limits.{memory_end, store_most};
ghost use Rattle.cycle.specs.Cycle.{is_width, is_port};
ghost use Rattle.act.specs.Cycle.{cycle_bytes, rest_after, next_time, is_late};
ghost use Rattle.step.specs.Step.{Way, Room, carry_of, moved_slave, moved_master};
ghost use Rattle.step.specs.inner.Machine.{is_inside, leaves_at, after_cycle};

use crate::Carry;
use act::{Ending, Route};
use channel::Request;

// What a cycle leaves of its request, and how it ends.
#[derive(Clone, Copy)]
pub(crate) struct Left {
    pub rest: Request,
    pub ending: Ending,
}

// How many bytes the next cycle of a request moves. Four bytes from a multiple of 4 on hold whole blocks of any Q.
#[tactic(auto, using(crate::proofs::ByteLaws::whole_bytes, crate::proofs::ByteLaws::table_bytes))]
pub(crate) fn cycle_bytes(route: Route, request: Request) -> u32
    requires { Way route request }
    ensures { result ≡ cycle_bytes route request }
{
    let q = cycle::narrower_of(route.width, route.port);
    if (4 <= request.left) & (request.address % 4 == 0) {
        return q;
    }
    if q == 1 {
        return 1;
    }
    cycle::tabled_length(q, request.address, request.left)
}

// What is left of a request after some of its bytes.
#[tactic(auto, unfolding(act::specs::Cycle::rest_after))]
fn rest_after(request: Request, bytes: u32) -> Request
    requires bytes_lt_left { bytes < request.left }
    requires left_bound { request.address + request.left ≤ memory_end }
    requires left_bound_2 { request.offset + request.left ≤ store_most }
    ensures { result ≡ rest_after request bytes }
{
    Request {
        direction: request.direction,
        space: request.space,
        address: request.address + bytes,
        left: request.left - bytes,
        offset: request.offset + bytes,
    }
}

// The address lies inside a transfer.
#[tactic(auto, using(cycle::proofs::Widths::width_is))]
fn is_inside(width: u32, address: u32) -> bool
    requires { is_width width ≡ true }
    ensures { result ≡ is_inside width address }
{
    if width == 4 {
        return address % 4 != 0;
    }
    address % 2 != 0
}

// The time of the transfer that begins with what is left: W bytes of it, or all.
#[tactic(auto, using(cycle::proofs::Widths::width_some, crate::proofs::ByteLaws::time_four, crate::proofs::ByteLaws::time_two, crate::proofs::ByteLaws::time_one, crate::proofs::ByteLaws::one_left))]
fn next_time(route: Route, rest: Request) -> u64
    requires width_value { is_width route.width ≡ true }
    requires port_value { is_port route.port ≡ true }
    requires width_value_2 { rest.address % route.width ≡ 0 }
    requires left_nonzero { 0 < rest.left }
    ensures { result ≡ next_time route rest }
{
    let bytes = basics::smaller(rest.left, route.width);
    let q = cycle::narrower_of(route.width, route.port);
    if q == 4 {
        return u64::from(route.time);
    }
    if q == 2 {
        return u64::from((bytes + 1) / 2) * u64::from(route.time);
    }
    u64::from(bytes) * u64::from(route.time)
}

// There is an asked time, and either linger is off or the next transfer would end after it and the allowance.
#[tactic(auto, unfolding(act::specs::Cycle::is_late))]
fn is_late(route: Route, asked: Option<u32>, clock: u32, rest: Request) -> bool
    requires width_value { is_width route.width ≡ true }
    requires port_value { is_port route.port ≡ true }
    requires width_value_2 { rest.address % route.width ≡ 0 }
    requires left_nonzero { 0 < rest.left }
    ensures { result ≡ is_late route asked clock (next_time route rest) }
{
    match asked {
        None => false,
        Some(t) => {
            if !frame::has_linger(route.options) {
                return true;
            }
            !frame::is_within(route.allowed, next_time(route, rest), clock, t)
        }
    }
}

// At the end of a transfer an owner with something left releases when burst is off or it is late.
#[tactic(auto, using(crate::proofs::AfterLaws::leaves_inside, crate::proofs::AfterLaws::leaves_single, crate::proofs::AfterLaws::leaves_late))]
fn leaves_at(route: Route, asked: Option<u32>, clock: u32, rest: Request) -> bool
    requires width_value { is_width route.width ≡ true }
    requires port_value { is_port route.port ≡ true }
    requires left_nonzero { 0 < rest.left }
    ensures { result ≡ leaves_at route asked clock rest }
{
    if is_inside(route.width, rest.address) {
        return false;
    }
    if !frame::has_burst(route.options) {
        return true;
    }
    is_late(route, asked, clock, rest)
}

// What a cycle leaves, and how it ends at the clock after it. A request that is done is released and leaves nothing: no
// address past its end is formed.
#[tactic(auto, using(crate::proofs::AfterLaws::after_done, crate::proofs::AfterLaws::some_left, crate::proofs::AfterLaws::after_leaving, crate::proofs::AfterLaws::after_staying))]
pub(crate) fn after_cycle(
    route: Route,
    asked: Option<u32>,
    clock: u32,
    request: Request,
    bytes: u32,
) -> Left
    requires way { Way route request }
    requires bytes_value { bytes ≡ cycle_bytes route request }
    ensures { result ≡ after_cycle route asked clock request }
{
    if bytes == request.left {
        return Left {
            rest: channel::no_request(),
            ending: act::released_by(route.options, asked, clock),
        };
    }
    let rest = rest_after(request, bytes);
    if leaves_at(route, asked, clock, rest) {
        return Left {
            rest,
            ending: act::released_by(route.options, asked, clock),
        };
    }
    Left {
        rest,
        ending: Ending::Kept,
    }
}

// What a cycle of `bytes` bytes moves, and where they lie in both stores.
#[tactic(auto, unfolding(crate::specs::Step::carry_of))]
pub(crate) fn carry_of(route: Route, request: Request, bytes: u32) -> Carry
    requires way { Way route request }
    requires bytes_value { bytes ≡ cycle_bytes route request }
    ensures { result ≡ carry_of route request }
{
    Carry {
        direction: request.direction,
        place: route.start + (request.address - route.base) as usize,
        offset: request.offset as usize,
        bytes: bytes as usize,
    }
}

// N bytes of a slice.
fn load<const N: usize>(source: &[u8], from: usize) -> [u8; N]
    requires { from + N ≤ length source.now }
    ensures { result ≡ take N (drop from source.now) }
{
    let mut bytes = [0; N];
    for i in 0..N {
        bytes[i] = source[from + i];
    }
    bytes
}

#[tactic(auto, using(std::proofs::lemmas::List::Edits::paste_more))]
fn store<const N: usize>(target: &mut [u8], to: usize, bytes: [u8; N])
    requires { to + N ≤ length target.old }
    ensures { target.new ≡ paste target.old to bytes.entry N }
{
    for i in 0..N {
        target[to + i] = bytes[i];
    }
}

// All loads before all stores, so that the bytes go at once. `copy_from_slice` would ask each time whether the two overlap.
fn move_n<const N: usize>(source: &[u8], from: usize, target: &mut [u8], to: usize)
    requires from_in_bounds { from + N ≤ length source.now }
    requires to_in_bounds { to + N ≤ length target.old }
    ensures { target.new ≡ paste target.old to (drop from source.now) N }
{
    let bytes: [u8; N] = load(source, from);
    store(target, to, bytes);
}

// Byte by byte: `copy_from_slice` is a call here, which would cost an owner's cycles the registers.
fn move_any(source: &[u8], from: usize, target: &mut [u8], to: usize, n: usize)
    requires n_in_bounds { from + n ≤ length source.now }
    requires n_in_bounds_2 { to + n ≤ length target.old }
    ensures { target.new ≡ paste target.old to (drop from source.now) n }
{
    for i in 0..n {
        target[to + i] = source[from + i];
    }
}

// Byte i of the source from `from` on goes to byte i of the target from `to` on, for i below n. What a cycle moves has a length
// that is written out, and so is one load and one store.
fn move_bytes(source: &[u8], from: usize, target: &mut [u8], to: usize, n: usize)
    requires n_in_bounds { from + n ≤ length source.now }
    requires n_in_bounds_2 { to + n ≤ length target.old }
    ensures { target.new ≡ paste target.old to (drop from source.now) n }
{
    match n {
        4 => move_n::<4>(source, from, target, to),
        2 => move_n::<2>(source, from, target, to),
        1 => move_n::<1>(source, from, target, to),
        _ => move_any(source, from, target, to, n),
    }
}

// Moves what is to be carried: direction 0 goes from the slave to the master, 1 the other way.
#[tactic(auto, unfolding(crate::specs::Step::moved_slave, crate::specs::Step::moved_master))]
pub(crate) fn carry(what: Carry, slave: &mut [u8], master: &mut [u8])
    requires { Room what (length slave.old) (length master.old) }
    ensures slave_after { slave.new ≡ moved_slave what slave.old master.old }
    ensures master_after { master.new ≡ moved_master what slave.old master.old }
{
    if what.direction == 0 {
        move_bytes(slave, what.place, master, what.offset, what.bytes);
    } else {
        move_bytes(master, what.offset, slave, what.place, what.bytes);
    }
}
