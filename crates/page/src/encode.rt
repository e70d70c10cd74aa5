// Records and heads of pages, written into a lent buffer.
ghost use Rattle.std.specs.Prelude.{◌≡◌, ◌+◌, ◌*◌, ◌≤◌, length};
ghost use Rattle.std.proofs.lemmas.List.Edits.{sets};
ghost use Rattle.page.specs.Bytes.{object_bytes, objects_bytes, field_bytes, component_bytes, size_of};

use bytes_le::{LittleEndian, flags};
use layout::{Component, Object};

// Writes an object record at the place.
fn put_object(buffer: &mut [u8], at: usize, object: Object)
    requires { at + 16 ≤ length buffer.old }
    ensures { buffer.new ≡ sets buffer.old at (object_bytes object) }
{
    crate::OBJECT_MARK.write_at(buffer, at);
    0u16.write_at(buffer, at + 2);
    object.target.write_at(buffer, at + 4);
    object.number.write_at(buffer, at + 8);
}

// Writes object records, one after the other, from the place on.
fn put_objects(buffer: &mut [u8], at: usize, objects: &[Object])
    requires { at + 16 * length objects.now ≤ length buffer.old }
    ensures { buffer.new ≡ sets buffer.old at (objects_bytes objects.now) }
{
    for (i, object) in objects.iter().enumerate() {
        put_object(buffer, at + 16 * i, *object);
    }
}

// Writes the 40 bytes of a component at the place.
fn put_fields(buffer: &mut [u8], at: usize, c: &Component)
    requires { at + 40 ≤ length buffer.old }
    ensures { buffer.new ≡ sets buffer.old at (field_bytes c.now) }
{
    let word = flags::word(c.init, c.extension);
    crate::COMPONENT_MARK.write_at(buffer, at);
    word.write_at(buffer, at + 2);
    c.id.write_at(buffer, at + 4);
    c.stripe_count.write_at(buffer, at + 6);
    c.stripe_size.write_at(buffer, at + 8);
    c.first_target.write_at(buffer, at + 12);
    c.begin.write_at(buffer, at + 16);
    c.end.write_at(buffer, at + 24);
    c.extension_size.write_at(buffer, at + 32);
}

// The number of bytes that a component takes in a page.
pub fn size_of(c: &Component) -> usize
    ensures { (result ≡ size_of c.now) × (result ≤ 296) }
{
    40 + 16 * layout::fields::record_count(*c)
}

// Writes a component at the place, after it its object records, and tells where they end.
pub fn put_component(buffer: &mut [u8], at: usize, c: &Component) -> usize
    requires { at + size_of c.now ≤ length buffer.old }
    ensures { (result ≡ at + size_of c.now)
        × (buffer.new ≡ sets buffer.old at (component_bytes c.now)) }
{
    put_fields(buffer, at, c);
    put_objects(buffer, at + 40, c.objects());
    at + size_of(c)
}
