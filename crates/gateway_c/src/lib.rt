// The entry points for C: the five calls of crate `gateway`, under their names and with their contracts. In C a slice
// is a pointer and a length, the pointer first; include/moorsickle.h declares them.
#![tactic(auto)]

ghost use Rattle.std.specs.Prelude.{◌≡◌, length};
ghost use Rattle.layout.specs.Rows.{object_of};
ghost use Rattle.mapping.specs.Homes.{in_object};
ghost use Rattle.gateway.specs.Host.{lookup_number, home_after, back_number, offset_after};
ghost use Rattle.gateway.specs.Host.{cut_number, pieces_after, count_after, page_number, buffer_after, written_after};
ghost use Rattle.gateway.specs.HostGrowth.{host_grown, grow_number, table_after, grown_after, answer_after};

// The home of the file byte at `offset`.
#[unsafe(no_mangle)]
pub extern "C" fn moorsickle_lookup(pages: &[u8], offset: u64, home: &mut [u64; 3]) -> u32
    ensures { (result ≡ lookup_number pages.now offset)
        × (home.new ≡ home_after pages.now offset home.old) }
{
    gateway::moorsickle_lookup(pages, offset, home)
}

// The way back: the file byte whose home is byte `byte` of the object with this target and number.
#[unsafe(no_mangle)]
pub extern "C" fn moorsickle_back(
    pages: &[u8],
    target: u32,
    number: u64,
    byte: u64,
    offset: &mut u64,
) -> u32
    ensures { let bytes = pages.now in
        let home = in_object (object_of target number) byte in
        (result ≡ back_number bytes home)
        × (offset.new ≡ offset_after bytes home offset.old) }
{
    gateway::moorsickle_back(pages, target, number, byte, offset)
}

// Cuts the request of `length` bytes from `offset` into pieces.
#[unsafe(no_mangle)]
pub extern "C" fn moorsickle_cut(
    pages: &[u8],
    offset: u64,
    length: u64,
    room: &mut [u64],
    count: &mut u64,
) -> u32
    ensures { let bytes = pages.now in
        let lent = room.old in
        (result ≡ cut_number bytes offset length lent)
        × (room.new ≡ pieces_after bytes offset length lent)
        × (count.new ≡ count_after bytes offset length lent count.old) }
{
    gateway::moorsickle_cut(pages, offset, length, room, count)
}

// Writes page `number` of the layout into the first bytes of `buffer`.
#[unsafe(no_mangle)]
pub extern "C" fn moorsickle_page(
    pages: &[u8],
    number: u64,
    buffer: &mut [u8],
    written: &mut u64,
) -> u32
    ensures { let bytes = pages.now in
        let lent = buffer.old in
        (result ≡ page_number bytes number lent)
        × (buffer.new ≡ buffer_after bytes number lent)
        × (written.new ≡ written_after bytes number lent written.old) }
{
    gateway::moorsickle_page(pages, number, buffer, written)
}

// Makes one step of growth of the layout, for the component that holds the file byte at `offset`.
#[unsafe(no_mangle)]
pub extern "C" fn moorsickle_grow(
    pages: &[u8],
    offset: u64,
    low_mark: u64,
    table: &mut [u64],
    grown: &mut [u8],
    answer: &mut [u64; 2],
) -> u32
    ensures { let o = host_grown pages.now offset low_mark table.old in
        let n = grow_number
        pages.now
        offset
        low_mark
        table.old
        (length grown.old) in
        (result ≡ n)
        × (table.new ≡ table_after n table.old o)
        × (grown.new ≡ grown_after n grown.old o)
        × (answer.new ≡ answer_after n answer.old o) }
{
    gateway::growing::moorsickle_grow(pages, offset, low_mark, table, grown, answer)
}
