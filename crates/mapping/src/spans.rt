// What cutting asks of components: of those of a valid layout, or of spans in a slice.
ghost use Rattle.std.specs.Prelude.{◌≡◌, ◌<◌, ◌≤◌, List, length, get_or};
ghost use Rattle.std.specs.Coded.{×_prop, le_prop};
ghost use Rattle.mapping.specs.declared.Span.{Span};
ghost use Rattle.mapping.specs.Spans.{no_span, spans_of, AllCuttable, AllCuttable-prop};

use crate::Span;
use crate::components::Components;

// Components as cutting sees them, wherever they are kept.
pub trait Spans {
    ghost spans: { Self → List Span };

    // How many there are.
    fn count(&self) -> usize
        ensures { result ≡ length (spans self.now) };

    // The one at a position.
    fn span(&self, i: usize) -> Span
        requires { i < length (spans self.now) }
        ensures { result ≡ get_or (spans self.now) i no_span };

    // They are at most 16, and each can be cut.
    ghost cuttable: { (s : Self) → (length (spans s) ≤ 16) × AllCuttable (spans s) };
}

// The components of a valid layout, as cutting sees them: each is read when it is asked for.
#[derive(Drop)]
pub struct SpansOf<'a, C> {
    pub components: &'a C,
}

impl<'a, C: Components> Spans for SpansOf<'a, C> {
    ghost use Rattle.mapping.specs.CuttingLaws.{valid_cuttable};

    ghost spans = { λ s. spans_of (C.list s.components.now) };

    fn count(&self) -> usize {
        self.components.count()
    }

    fn span(&self, i: usize) -> Span {
        self.components.span(i)
    }

    ghost cuttable = { λ s. valid_cuttable (C.list s.components.now) (C.valid s.components.now) };
}

// Spans that can be cut, in a slice.
#[derive(Clone, Copy)]
pub struct SpanList<'a> {
    pub spans: &'a [Span],
    ghost cuttable: { (length spans.now ≤ 16)
        × AllCuttable spans.now } by { ×_prop le_prop (AllCuttable-prop spans.now) },
}

impl<'a> Spans for SpanList<'a> {
    ghost spans = { λ s. s.spans.now };

    fn count(&self) -> usize {
        self.spans.len()
    }

    fn span(&self, i: usize) -> Span {
        self.spans[i]
    }

    ghost cuttable = { λ s. s.cuttable };
}
