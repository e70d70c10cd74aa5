// The lines of the listing, each put at the end of the text.
ghost use Rattle.std.specs.Prelude.{◌≡◌, ◌++◌, ◌+◌, ◌*◌, ◌≤◌, length};
ghost use Rattle.refusals.specs.Refusals.{number_of};
ghost use Rattle.listing.specs.Listing.{size_in, head_line, component_line, layout_text, refused_line};

use crate::text;
use crate::text::Text;
use layout::{Component, Layout};
use refusals::Refusal;

// Appends the first line of a layout's listing.
fn push_head(text: &mut Text, generation: u32, count: usize)
    requires { length text.old.bytes + 144 ≤ 2448 }
    ensures value { text.new.bytes ≡ text.old.bytes ++ head_line generation count }
    ensures upper_bound { length text.new.bytes ≤ length text.old.bytes + 144 }
{
    text.push_str("layout ");
    text::push_number(text, generation, " components ");
    text::push_number(text, count, "\n");
}

// Appends the line of a refusal.
pub(crate) fn push_refused(text: &mut Text, refusal: Refusal, page: usize)
    requires { length text.old.bytes + 144 ≤ 2448 }
    ensures { text.new.bytes ≡ text.old.bytes ++ refused_line (number_of refusal) page }
{
    text.push_str("refused ");
    text::push_number(text, refusal.number(), " page ");
    text::push_number(text, page, "\n");
}

// The size that a component's line has: of an extension, its extension size.
fn size_of(c: &Component) -> u64
    ensures { result ≡ size_in c.now.extension c.now.stripe_size c.now.extension_size }
{
    if c.extension {
        c.extension_size
    } else {
        u64::from(c.stripe_size)
    }
}

// Appends the line of a component.
fn push_component(text: &mut Text, c: &Component)
    requires { length text.old.bytes + 144 ≤ 2448 }
    ensures value { text.new.bytes ≡ text.old.bytes ++ component_line c.now }
    ensures upper_bound { length text.new.bytes ≤ length text.old.bytes + 144 }
{
    text::push_number(text, c.id, " ");
    text::push_number(text, c.begin, " ");
    text::push_end(text, c.end, " ");
    text::push_word(text, text::kind_word(c), " ");
    text::push_number(text, c.stripe_count, " ");
    text::push_number(text, size_of(c), " ");
    text::push_number(text, c.first_target, "\n");
}

// Appends the listing of a layout to an empty text: the first line, and a line for each component.
pub(crate) fn push_layout(text: &mut Text, l: &Layout)
    requires { (l.now.count ≤ 16) × (length text.old.bytes ≡ 0) }
    ensures { text.new.bytes ≡ text.old.bytes ++ layout_text l.now }
{
    push_head(text, l.generation, l.count);
    for c in l.components() {
        push_component(text, c);
    }
}
