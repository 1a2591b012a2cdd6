use lw_ilbm::{PictureStop, decode, encode};
use std::alloc::{AllocError, Global};
use std::test::Fail;

// A picture of 16 columns, 4 rows and one plane, with pen 1 at the columns 1 and 2 of the rows 1 and 2.
const FILE: [u8; 60] = [
    b'F', b'O', b'R', b'M', 0, 0, 0, 52, b'I', b'L', b'B', b'M', b'B', b'M', b'H', b'D', 0, 0, 0,
    20, 0, 16, 0, 4, 0, 0, 0, 0, 1, 0, 1, 0, 0, 0, 1, 1, 0, 16, 0, 4, b'B', b'O', b'D', b'Y', 0, 0,
    0, 12, 1, 0, 0, 1, 96, 0, 1, 96, 0, 1, 0, 0,
];

fn byte_at(bytes: &[u8], place: usize) -> usize {
    match bytes.get(place) {
        Some(byte) => *byte as usize,
        None => 0,
    }
}

fn word_at(bytes: &[u8], place: usize) -> usize {
    byte_at(bytes, place)
        .wrapping_mul(256)
        .wrapping_add(byte_at(bytes, place.wrapping_add(1)))
}

fn long_at(bytes: &[u8], place: usize) -> usize {
    word_at(bytes, place)
        .wrapping_mul(65_536)
        .wrapping_add(word_at(bytes, place.wrapping_add(2)))
}

// The first fault of a BMHD chunk.
fn header_fault(bytes: &[u8], place: usize, limit: usize) -> Option<usize> {
    let width = word_at(bytes, place.wrapping_add(8));
    let height = word_at(bytes, place.wrapping_add(10));
    let depth = byte_at(bytes, place.wrapping_add(16));
    let masking = byte_at(bytes, place.wrapping_add(17));
    if long_at(bytes, place.wrapping_add(4)) < 20 {
        Some(place)
    } else if width == 0 || width > limit {
        Some(place.wrapping_add(8))
    } else if height == 0 || height > limit {
        Some(place.wrapping_add(10))
    } else if depth == 0 || depth > 8 {
        Some(place.wrapping_add(16))
    } else if masking == 1 || masking > 3 {
        Some(place.wrapping_add(17))
    } else if byte_at(bytes, place.wrapping_add(18)) > 1 {
        Some(place.wrapping_add(18))
    } else {
        None
    }
}

// How many bytes codes stand for.
fn unpacked_count(codes: &[u8]) -> usize {
    let mut copied = 0usize;
    let mut repeated = 0usize;
    let mut count = 0usize;
    for byte in codes {
        let code = *byte as usize;
        if copied > 0 {
            copied -= 1;
            count = count.wrapping_add(1);
        } else if repeated > 0 {
            count = count.wrapping_add(repeated);
            repeated = 0;
        } else if code < 128 {
            copied = code + 1;
        } else if code > 128 {
            repeated = 257usize.wrapping_sub(code);
        }
    }
    count
}

// Whether the contents of a body are too few for the header at this place.
fn is_too_short(bytes: &[u8], header: usize, contents: &[u8]) -> bool {
    let row = word_at(bytes, header.wrapping_add(8)).wrapping_add(15) / 16;
    let due = row
        .wrapping_mul(2)
        .wrapping_mul(word_at(bytes, header.wrapping_add(10)))
        .wrapping_mul(byte_at(bytes, header.wrapping_add(16)));
    if byte_at(bytes, header.wrapping_add(18)) == 1 {
        unpacked_count(contents) < due
    } else {
        contents.len() < due
    }
}

fn name_fault(bytes: &[u8]) -> Option<usize> {
    for place in [0usize, 1, 2, 3, 8, 9, 10, 11] {
        match bytes.get(place) {
            None => return Some(bytes.len()),
            Some(byte) => {
                if *byte as usize != byte_at(b"FORM....ILBM", place) {
                    return Some(place);
                }
            }
        }
    }
    None
}

// The place of a file's first fault.
fn first_fault(bytes: &[u8], limit: usize) -> Option<usize> {
    if let Some(place) = name_fault(bytes) {
        return Some(place);
    }
    let mut place = 12usize;
    let mut header = None;
    for _ in 0..bytes.len() {
        let data = place.wrapping_add(8);
        if bytes.len() < data {
            return Some(bytes.len());
        }
        let count = long_at(bytes, place.wrapping_add(4));
        let end = data.wrapping_add(count);
        let Some(contents) = bytes.get(data..end) else {
            return Some(place);
        };
        if long_at(bytes, place) == 0x424f_4459 {
            return match header {
                None => Some(place),
                Some(head) => is_too_short(bytes, head, contents).then_some(end),
            };
        }
        if long_at(bytes, place) == 0x424d_4844 && header.is_none() {
            if let Some(fault) = header_fault(bytes, place, limit) {
                return Some(fault);
            }
            header = Some(place);
        }
        place = end.wrapping_add(count % 2);
    }
    Some(bytes.len())
}

// Whether `decode` tells the file's first fault, and no other.
fn is_judged(alloc: Global, bytes: &[u8]) -> bool {
    if bytes.len() > 1000 {
        return false;
    }
    let told = match decode(alloc, bytes, 1024) {
        Ok(_) => None,
        Err(PictureStop::BadPicture { place }) => Some(place as usize),
        Err(PictureStop::Memory) => return false,
    };
    told == first_fault(bytes, 1024)
}

// Whether a file's picture has this file.
fn has_file(alloc: Global, bytes: &[u8], file: &[u8]) -> Result<bool, AllocError> {
    if bytes.len() > 1000 {
        return Ok(false);
    }
    match decode(alloc, bytes, 1024) {
        Ok(planes) => Ok(encode(alloc, &planes)?.as_slice() == file),
        Err(_) => Ok(false),
    }
}

#[test]
fn every_prefix_has_its_fault(rt: HostRuntime) -> Result<(), Fail> {
    let alloc = rt.alloc();
    for count in 0..61 {
        assert!(rt; is_judged(alloc, &FILE[..count]));
    }
    Ok(())
}

#[test]
fn every_changed_byte_has_its_fault(rt: HostRuntime) -> Result<(), Fail> {
    let alloc = rt.alloc();
    for place in 0..60 {
        let mut changed = FILE;
        for value in 0u16..256 {
            changed[place] = value as u8;
            assert!(rt; is_judged(alloc, &changed));
        }
    }
    Ok(())
}

#[test]
fn files_of_other_programs_are_read(rt: HostRuntime) -> Result<(), Fail> {
    let alloc = rt.alloc();
    // not packed, with a text of odd length, a second header and colours before the body, and a byte after it
    let plain =
        b"FORM\0\0\0\0ILBMANNO\0\0\0\x01x\0BMHD\0\0\0\x14\0\x10\0\x04\0\0\0\0\x01\x02\0\0\0\0\x0a\x0b\x01\x40\0\xc8BMHD\0\0\0\0CMAP\0\0\0\x06\0\0\0\xff\xff\xffBODY\0\0\0\x08\0\0\x60\0\x60\0\0\0!";
    assert!(rt; has_file(alloc, plain, &FILE)?);
    // a copy over two rows, a code without meaning, repeats of two and of 128 bytes
    let packed =
        b"FORM\0\0\0\0ILBMBMHD\0\0\0\x14\0\x10\0\x04\0\0\0\0\x01\x00\x01\0\0\0\x0a\x0b\x01\x40\0\xc8BODY\0\0\0\x0b\xff\0\x80\x03\x60\0\x60\0\x80\x81\0";
    assert!(rt; has_file(alloc, packed, &FILE)?);
    Ok(())
}

#[test]
fn padding_is_zeros(rt: HostRuntime) -> Result<(), Fail> {
    let alloc = rt.alloc();
    let marked =
        b"FORM\0\0\0\0ILBMBMHD\0\0\0\x14\0\x04\0\x01\0\0\0\0\x01\0\0\0\0\0\x01\x01\0\x04\0\x01BODY\0\0\0\x02\xff\xff";
    let due =
        b"FORM\0\0\0\x2cILBMBMHD\0\0\0\x14\0\x04\0\x01\0\0\0\0\x01\0\x01\0\0\0\x01\x01\0\x04\0\x01BODY\0\0\0\x03\x01\xf0\0\0";
    assert!(rt; has_file(alloc, marked, due)?);
    Ok(())
}
