// Round-robin striping: where a file byte is in the objects of its component, and the way back. z is the stripe
// size in bytes, s the stripe count; a file byte is counted from the file's start, an object byte from its object's.
// What is in quotes is document 01's.
#![tactic(auto)]

ghost use Rattle.std.specs.Prelude.{◌≡◌, ◌<◌, ◌≤◌, ◌^◌};
ghost use Rattle.std.specs.Option.{is_some};
ghost use Rattle.stripe.specs.Stripe.{unit_of, stripe_of, object_byte, file_byte_below};
ghost use Rattle.stripe.specs.Laws.{told_below};

// The unit of a file byte, counted from 0 in units of z bytes: "unit k = O / z rounded down".
pub fn unit_of(z: u32, offset: u64) -> u64
    requires { 0 < z }
    ensures { result ≡ unit_of z offset }
{
    offset / (z as u64)
}

// The stripe of a file byte, counted from 0: "stripe k mod S".
pub fn stripe_of(z: u32, s: u16, offset: u64) -> u16
    requires { (0 < z) × (0 < s) }
    ensures { (result ≡ stripe_of z s offset) × (result < s) }
{
    (unit_of(z, offset) % (s as u64)) as u16
}

// The object byte of a file byte: "object byte (k / S rounded down) x z + O mod z". It is at most the file byte.
pub fn object_byte(z: u32, s: u16, offset: u64) -> u64
    requires { (0 < z) × (0 < s) }
    ensures { (result ≡ object_byte z s offset) × (result ≤ offset) }
{
    let size = z as u64;
    let count = s as u64;
    unit_of(z, offset) / count * size + offset % size
}

// The file byte of object byte p of stripe i, "((p / z) x S + i) x z + p mod z, division rounded down", or `None` if it
// is "not below 2^64". That is told by the two tests of the law on when a file byte is below a bound, here 2^64.
pub fn file_byte(z: u32, s: u16, i: u16, p: u64) -> Option<u64>
    requires { (0 < z) × (0 < s) }
    ensures { (result ≡ file_byte_below z s i p) × (is_some result ≡ told_below (2 ^ 64) z s i p) }
{
    let size = z as u64;
    let unit = (p / size).checked_mul(s as u64)?.checked_add(i as u64)?;
    unit.checked_mul(size)?.checked_add(p % size)
}
