// The pages that are taken. A head and an object record have a row each, a component has two.

// Document 01's page: generation 5, one component of 64 KiB on target 2, object 7.
pub(crate) const ONE: [u8; 72] = *b"PH\0\0\0\0\x01\0\x05\0\0\0\0\0\0\0\
    CP\x01\0\x01\0\x01\0\0\0\x01\0\x02\0\0\0\
    \0\0\0\0\0\0\0\0\0\0\x01\0\0\0\0\0\0\0\0\0\0\0\0\0\
    OB\0\0\x02\0\0\0\x07\0\0\0\0\0\0\0";

// Layout A in one page, of generation 1: component 1 on object 10 of target 0, component 2 on objects 11, 12 and 13 of
// targets 1, 2 and 3.
pub(crate) const A: [u8; 200] = *b"PH\0\0\0\0\x03\0\x01\0\0\0\0\0\0\0\
    CP\x01\0\x01\0\x01\0\0\0\x10\0\0\0\0\0\
    \0\0\0\0\0\0\0\0\0\0\x20\0\0\0\0\0\0\0\0\0\0\0\0\0\
    OB\0\0\0\0\0\0\x0a\0\0\0\0\0\0\0\
    CP\x01\0\x02\0\x03\0\0\0\x10\0\x01\0\0\0\
    \0\0\x20\0\0\0\0\0\0\0\0\x01\0\0\0\0\0\0\0\0\0\0\0\0\
    OB\0\0\x01\0\0\0\x0b\0\0\0\0\0\0\0\
    OB\0\0\x02\0\0\0\x0c\0\0\0\0\0\0\0\
    OB\0\0\x03\0\0\0\x0d\0\0\0\0\0\0\0\
    CP\0\0\x03\0\x04\0\0\0\x40\0\xff\xff\xff\xff\
    \0\0\0\x01\0\0\0\0\xff\xff\xff\xff\xff\xff\xff\xff\0\0\0\0\0\0\0\0";

// Layout B in four pages, of generation 9: component 1 on object 10 of target 0.
pub(crate) const B_0: [u8; 72] = *b"PH\x01\0\0\0\x01\0\x09\0\0\0\0\0\0\0\
    CP\x01\0\x01\0\x01\0\0\0\x10\0\0\0\0\0\
    \0\0\0\0\0\0\0\0\0\0\0\x01\0\0\0\0\0\0\0\0\0\0\0\0\
    OB\0\0\0\0\0\0\x0a\0\0\0\0\0\0\0";

pub(crate) const B_1: [u8; 56] = *b"PH\x01\0\x01\0\x01\0\x09\0\0\0\0\0\0\0\
    CP\x02\0\x02\0\0\0\0\0\0\0\xff\xff\xff\xff\
    \0\0\0\x01\0\0\0\0\0\0\x40\x06\0\0\0\0\0\0\0\x01\0\0\0\0";

pub(crate) const B_2: [u8; 56] = *b"PH\x01\0\x02\0\x01\0\x09\0\0\0\0\0\0\0\
    CP\0\0\x03\0\x01\0\0\0\x10\0\xff\xff\xff\xff\
    \0\0\x40\x06\0\0\0\0\0\0\x40\x06\0\0\0\0\0\0\0\0\0\0\0\0";

pub(crate) const B_3: [u8; 56] = *b"PH\0\0\x03\0\x01\0\x09\0\0\0\0\0\0\0\
    CP\x02\0\x04\0\0\0\0\0\0\0\xff\xff\xff\xff\
    \0\0\x40\x06\0\0\0\0\xff\xff\xff\xff\xff\xff\xff\xff\0\0\x80\x01\0\0\0\0";
