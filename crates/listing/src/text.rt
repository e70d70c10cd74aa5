// The text of a listing, and the words that are put at its end, each with what comes after it.
ghost use Rattle.std.specs.Prelude.{◌≡◌, ◌++◌, ◌+◌, ◌≤◌, length};
ghost use Rattle.listing.specs.Listing.{end_word, kind_word};

use arrayvec::ArrayString;
use itoa::{Buffer, Integer};
use layout::Component;

// The most bytes that a listing has: it has at most 17 lines, of at most 144 bytes.
const ROOM: usize = 2448;

// The text of a listing: it has room for every one.
pub(crate) type Text = ArrayString<ROOM>;

// What an extent without an end has for its end.
const EOF: u64 = u64::MAX;

// Appends a word.
pub(crate) fn push_word(text: &mut Text, word: &str, after: &str)
    requires { length text.old.bytes + length word.now + length after.now ≤ 2448 }
    ensures value { text.new.bytes ≡ text.old.bytes ++ (word.now ++ after.now) }
    ensures length { length text.new.bytes ≡ length text.old.bytes + length word.now + length after.now }
{
    text.push_str(word);
    text.push_str(after);
}

// Appends a number in decimal.
pub(crate) fn push_number<N: Integer>(text: &mut Text, n: N, after: &str)
    requires { length text.old.bytes + N.MAX_STR_LEN + length after.now ≤ 2448 }
    ensures value { text.new.bytes ≡ text.old.bytes ++ (N.text n ++ after.now) }
    ensures upper_bound { length text.new.bytes ≤ length text.old.bytes + N.MAX_STR_LEN + length after.now }
{
    let mut digits = Buffer::new();
    push_word(text, digits.format(n), after);
}

// Appends where an extent ends.
pub(crate) fn push_end(text: &mut Text, end: u64, after: &str)
    requires { length text.old.bytes + 20 + length after.now ≤ 2448 }
    ensures value { text.new.bytes ≡ text.old.bytes ++ (end_word end ++ after.now) }
    ensures upper_bound { length text.new.bytes ≤ length text.old.bytes + 20 + length after.now }
{
    if end == EOF {
        push_word(text, "eof", after);
    } else {
        push_number(text, end, after);
    }
}

// The word for the kind of a component.
pub(crate) fn kind_word(c: &Component) -> &'static str
    ensures value { result.now ≡ kind_word c.now.init c.now.extension }
    ensures upper_bound { length result.now ≤ 9 }
{
    if c.init {
        "init"
    } else if c.extension {
        "extension"
    } else {
        "bare"
    }
}
