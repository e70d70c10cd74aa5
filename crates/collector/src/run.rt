// Runs of pages: a layout is read from bytes that hold all of its pages.
ghost use Rattle.std.specs.Prelude.{◌≡◌};
ghost use Rattle.collector.specs.Runs.{read_run, listed_cut};
ghost use Rattle.collector.specs.Reads.{next_answer, cut_says, reading_says};

use bytes_le::LittleEndian;
use layout::Layout;
use refusals::Refusal;

// "a length above 512, gives 3".
const MOST_LENGTH: usize = 512;

// What reading a run gives: the number of pages, and the layout.
#[derive(Clone, Copy)]
pub struct Reading {
    pub pages: usize,
    pub layout: Layout,
}

// The first refusal of a run, and the number of its page, counted from 0.
#[derive(Clone, Copy)]
pub struct RefusedPage {
    pub refusal: Refusal,
    pub page: usize,
}

// The page that comes next in the listing's bytes, after its length, and the bytes after it.
fn next_page(s: &[u8]) -> Result<(&[u8], &[u8]), Refusal>
    ensures { cut_says result ≡ next_answer (listed_cut s.now) }
{
    if s.is_empty() {
        return Err(Refusal::NotValid);
    }
    if s.len() < 2 {
        return Err(Refusal::Form);
    }
    let length = usize::from(u16::read_at(s, 0));
    let rest = &s[2..];
    if MOST_LENGTH < length || rest.len() < length {
        return Err(Refusal::Form);
    }
    Ok(rest.split_at(length))
}

// Reads the listing's pages: each comes after its length, a number of two bytes.
pub fn read_listed(s: &[u8]) -> Result<Reading, RefusedPage>
    ensures { reading_says result ≡ read_run listed_cut s.now }
{
    let mut c = crate::new_collector();
    let mut rest = s;
    while !c.layout.complete {
        let page = c.pages;
        let refused = |refusal| RefusedPage { refusal, page };
        let (bytes, after) = next_page(rest).map_err(refused)?;
        crate::take_next(&mut c, bytes).map_err(refused)?;
        rest = after;
    }
    if !rest.is_empty() {
        return Err(RefusedPage {
            refusal: Refusal::AfterLastPage,
            page: c.pages,
        });
    }
    Ok(Reading {
        pages: c.pages,
        layout: crate::layout_in(&c),
    })
}
