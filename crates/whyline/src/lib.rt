// The answer to "why is my card waiting?" in words (document 02, CR 3), a line in a lent buffer.
#![tactic(auto)]

ghost use Rattle.std.specs.Prelude.{◌≡◌, ◌++◌, ◌+◌, ◌≤◌, length};
ghost use Rattle.std.proofs.lemmas.List.Edits.{sets};
ghost use Rattle.logline.specs.Text.{place_after, out_after};
ghost use Rattle.whyline.specs.Words.{counted, reason_text, told_text};

use why::Reason;

// Words.
fn put_words(out: &mut [u8], at: usize, words: &[u8]) -> usize
    requires { at + length words.now ≤ length out.old }
    ensures value { result ≡ at + length words.now }
    ensures out_after { out.new ≡ sets out.old at words.now }
{
    let end = at + words.len();
    out[at..end].copy_from_slice(words);
    end
}

// Words and then a number.
fn put_counted(out: &mut [u8], at: usize, words: &[u8], n: u32) -> usize
    requires { at + length words.now + 10 ≤ length out.old }
    ensures value { result ≡ at + length (counted words.now n) }
    ensures out_after { out.new ≡ sets out.old at (counted words.now n) }
{
    let next = put_words(out, at, words);
    logline::put_decimal(out, next, n)
}

// Words, a number, and words.
fn put_named(out: &mut [u8], at: usize, before: &[u8], n: u32, after: &[u8]) -> usize
    requires { at + length before.now + 10 + length after.now ≤ length out.old }
    ensures value { result ≡ at + length (counted before.now n ++ after.now) }
    ensures out_after { out.new ≡ sets out.old at (counted before.now n ++ after.now) }
{
    let next = put_counted(out, at, before, n);
    put_words(out, next, after)
}

// What is said of a level, by the reason.
fn put_reason(out: &mut [u8], at: usize, reason: Reason) -> usize
    requires { at + 40 ≤ length out.old }
    ensures value { result ≡ at + length (reason_text reason) }
    ensures out_after { out.new ≡ sets out.old at (reason_text reason) }
{
    match reason {
        Reason::NotPresent => put_words(out, at, b": not present\n"),
        Reason::NoRequest => put_words(out, at, b": no request\n"),
        Reason::Owns => put_words(out, at, b": owns the channel\n"),
        Reason::Inactive => put_words(out, at, b": inactive; others go first\n"),
        Reason::Holds(owner) => put_named(
            out,
            at,
            b": waits; level ",
            owner as u32,
            b" still holds\n",
        ),
        Reason::Outranked(winner) => put_named(
            out,
            at,
            b": outranked; level ",
            winner as u32,
            b" wins next\n",
        ),
        Reason::WinsNext => put_words(out, at, b": wins next\n"),
    }
}

// The line of an answer: after which event, at what clock, of which level, and the reason. Written where there is room for the
// longest line of a log.
pub fn put_told(
    out: &mut [u8],
    at: usize,
    event: u32,
    clock: u32,
    level: u32,
    reason: Reason,
) -> usize
    ensures value { result ≡ place_after out.old at (told_text event clock level reason) }
    ensures out_after { out.new ≡ out_after out.old at (told_text event clock level reason) }
{
    if !logline::has_room(out.len(), at) {
        return at;
    }
    let first = put_counted(out, at, b"event ", event);
    let second = put_counted(out, first, b", ", clock);
    let third = put_counted(out, second, b" ns, level ", level);
    put_reason(out, third, reason)
}
