// Reading a record.
ghost use Rattle.std.specs.Prelude.{◌≡◌, ◌+◌, ◌*◌};
ghost use Rattle.layout.specs.Layout.{short_at, node_at};
ghost use Rattle.job.specs.Links.{link};

use layout::Node;

// The size of a record.
pub(crate) const RECORD_BYTES: usize = 12;

// A leaf covers at most so many frames.
const MOST_FRAMES: u16 = 256;

// One more than the highest frame number.
const FRAMES_END: u64 = 4294967296;

// The link in two bytes.
pub(crate) fn link(high: u8, low: u8) -> Option<u16>
    ensures { result ≡ link (high * 256 + low) }
{
    match u16::from_be_bytes([high, low]) {
        0 => None,
        x => Some(x),
    }
}

// The link in a record, to the next.
pub(crate) fn next(bytes: &[u8; RECORD_BYTES]) -> Option<u16>
    ensures { result ≡ link (short_at bytes.now 2) }
{
    link(bytes[2], bytes[3])
}

// The node in a record, where its bytes are right: kind, zero, the next index (2), and eight bytes by kind.
pub(crate) fn decode(bytes: &[u8; RECORD_BYTES]) -> Option<Node>
    ensures { result ≡ node_at bytes.now 0 }
{
    match *bytes {
        // first frame (4), count (2), two zeros
        [1, 0, _, _, f3, f2, f1, f0, c1, c0, 0, 0] => {
            let first = u32::from_be_bytes([f3, f2, f1, f0]);
            let count = u16::from_be_bytes([c1, c0]);
            let end = u64::from(first) + u64::from(count);
            if count < 1 || count > MOST_FRAMES || end > FRAMES_END {
                return None;
            }
            Some(Node::Leaf { first, count })
        }
        // left (2), right (2), four zeros
        [2, 0, _, _, l1, l0, r1, r0, 0, 0, 0, 0] => Some(Node::Fork {
            left: u16::from_be_bytes([l1, l0]),
            right: u16::from_be_bytes([r1, r0]),
        }),
        _ => None,
    }
}
