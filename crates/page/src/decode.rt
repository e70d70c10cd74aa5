// What is at a place of a page.
ghost use Rattle.std.specs.Prelude.{◌≡◌, ◌+◌, ◌*◌, ◌≤◌, min, length};
ghost use Rattle.layout.specs.Records.{pack_objects};
ghost use Rattle.page.specs.Form.{component_end};
ghost use Rattle.page.specs.Content.{object_at, objects_at, component_at};

use crate::form;
use bytes_le::{LittleEndian, flags};
use layout::{Component, NO_OBJECT, Object};

// The object record at the place.
#[tactic(auto, unfolding(crate::specs::Content::object_at))]
pub fn object_at(s: &[u8], at: usize) -> Object
    requires { at + 16 ≤ length s.now }
    ensures { result ≡ object_at s.now at }
{
    Object {
        target: u32::read_at(s, at + 4),
        number: u64::read_at(s, at + 8),
    }
}

// The n object records from the place on, packed into 16 places.
fn objects_at(s: &[u8], at: usize, n: usize) -> [Object; 16]
    requires { (n ≤ 16) × (at + 16 * n ≤ length s.now) }
    ensures { result ≡ pack_objects (objects_at n s.now at) }
{
    let mut objects = [NO_OBJECT; 16];
    for i in 0..n {
        objects[i] = object_at(s, at + 16 * i);
    }
    objects
}

// The component at the place, with its object records.
pub fn component_at(s: &[u8], at: usize) -> Component
    requires { component_end s.now at ≤ length s.now }
    ensures { result ≡ component_at s.now at }
{
    let records = form::record_count(s, at).min(16);
    let objects = objects_at(s, at + 40, records);
    let word = u16::read_at(s, at + 2);
    Component {
        init: flags::is_set(word, 0),
        extension: flags::is_set(word, 1),
        id: u16::read_at(s, at + 4),
        stripe_count: u16::read_at(s, at + 6),
        stripe_size: u32::read_at(s, at + 8),
        first_target: i32::read_at(s, at + 12),
        begin: u64::read_at(s, at + 16),
        end: u64::read_at(s, at + 24),
        extension_size: u64::read_at(s, at + 32),
        objects,
    }
}
