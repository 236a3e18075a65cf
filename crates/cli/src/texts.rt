//! The texts that lines print. None of them allocates, so that what was done is printed.

ghost use Rattle.std.specs.Prelude.{◌≡◌, ◌+◌, ◌*◌, ◌≤◌, [], ◌∷◌, ◌++◌, length, decimal};
ghost use Rattle.http_stream.specs.declared.TheConstants.{MAX_SHORT_TEXT};
ghost use Rattle.arrayvec.specs.ArrayVec.{array_vec_len};
ghost use Rattle.office_model.specs.declared.refusal.Refusal.TheVariants as no;
ghost use Rattle.cli.specs.Outcomes.{named_line, refusal_line, bad_line, counts_text, closed_line};

use arrayvec::ArrayVec;
use office_model::Refusal;
use spa::RANKS;
use web::{ShortText, push, push_labelled, push_number};

/// What is printed where an argument is not UTF-8, as `clap` words a fault of the line.
pub(crate) static NOT_UTF8: &str =
    "error: invalid UTF-8 was detected in one or more arguments\n\nUsage: spadesk <COMMAND>\n\nFor more information, try '--help'.\n";

/// Returns a line of a label and a number.
pub(crate) fn labelled(label: &[u8], number: u32) -> ShortText
    requires { length label.now ≤ 100 }
    ensures { result.items ≡ label.now ++ decimal number ++ 10 ∷ [] }
{
    let mut line = ArrayVec::new();
    push_labelled(&mut line, label, number);
    push(&mut line, b"\n");
    line
}

/// Returns the line of a refused record, with the number of its own refusal.
fn row_line(number: u32, inner: u32) -> ShortText
    ensures { result.items ≡ refusal_line (no.Row number inner) }
{
    let mut line = ArrayVec::new();
    push_labelled(&mut line, b"refused 29: Row ", number);
    push_labelled(&mut line, b" ", inner);
    push(&mut line, b"\n");
    line
}

/// Returns the line of a refusal with this number and this name.
fn named_line(number: u32, name: &str) -> ShortText
    requires { length name.now ≤ 100 }
    ensures { result.items ≡ named_line number name.now }
{
    let mut line = ArrayVec::new();
    push_labelled(&mut line, b"refused ", number);
    push(&mut line, b": ");
    push(&mut line, name.as_bytes());
    push(&mut line, b"\n");
    line
}

/// Returns the line of a refusal.
pub(crate) fn refusal_line(refusal: Refusal) -> ShortText
    ensures { result.items ≡ refusal_line refusal }
{
    match refusal {
        Refusal::Row { record, inner } => row_line(record, inner),
        _ => named_line(refusal.number(), refusal.name()),
    }
}

/// Returns the line of a round text's bad line.
pub(crate) fn bad_line(number: usize) -> ShortText
    ensures { result.items ≡ bad_line number }
{
    let mut line = ArrayVec::new();
    push(&mut line, b"bad line ");
    push_number(&mut line, number as u64);
    push(&mut line, b"\n");
    line
}

/// Appends numbers, each after a space.
fn push_counts(out: &mut ShortText, counts: &[u32])
    requires { array_vec_len out.old + 11 * length counts.now ≤ MAX_SHORT_TEXT }
    ensures items { out.new.items ≡ out.old.items ++ counts_text counts.now }
    ensures len { array_vec_len out.new ≤ array_vec_len out.old + 11 * length counts.now }
{
    for count in counts {
        push_labelled(out, b" ", *count);
    }
}

/// Returns the line of a closed round.
pub(crate) fn closed_line(round: u32, size: u32, profile: &[u32; RANKS]) -> ShortText
    ensures { result.items ≡ closed_line round size profile.now }
{
    let mut line = ArrayVec::new();
    push_labelled(&mut line, b"round ", round);
    push_labelled(&mut line, b" size ", size);
    push(&mut line, b" profile");
    push_counts(&mut line, profile);
    push(&mut line, b"\n");
    line
}
