// Published values of the CRC-8 of SAE J1850.
use frame::crc8;

const PUBLISHED: [(&[u8], u8); 8] = [
    (b"123456789", 0x4b),
    (b"\0\0\0\0", 0x59),
    (b"\xf2\x01\x83", 0x37),
    (b"\x0f\xaa\0\x55", 0x79),
    (b"\0\xff\x55\x11", 0xb8),
    (b"\x33\x22\x55\xaa\xbb\xcc\xdd\xee\xff", 0xcb),
    (b"\x92\x6b\x55", 0x8c),
    (b"\xff\xff\xff\xff", 0x74),
];

#[test]
fn crc8_of_published_bytes(rt: HostRuntime) {
    for (bytes, crc) in &PUBLISHED {
        assert_eq!(rt; crc8(bytes), *crc);
    }
}
