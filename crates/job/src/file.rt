// Job files: a header of four bytes, then records of twelve.
ghost use Rattle.std.specs.Prelude.{◌≡◌, IfOk};
ghost use Rattle.layout.specs.Follows.{Index, WellSized};
ghost use Rattle.layout.specs.Layout.{count, header, first, start, node_at};
ghost use Rattle.layout.specs.Steps.{map_ok};
ghost use Rattle.job.specs.Files.{record_at};
ghost use Rattle.job.specs.Links.{link};

use crate::record::{RECORD_BYTES, decode, link};
use crate::row::{MOST_ITEMS, item};
use layout::{LoadRefusal, Node};

// The size of the header.
const HEADER_BYTES: usize = 4;

// A file that ends after its last record.
#[derive(Clone, Copy)]
pub(crate) struct JobFile<'a> {
    bytes: &'a [u8],
    ghost sized: { WellSized bytes.now },
}

impl<'a> JobFile<'a> {
    // The file in `bytes`, where the header and the length are right.
    pub(crate) fn parse(bytes: &'a [u8]) -> Result<JobFile<'a>, LoadRefusal>
        ensures header { map_ok (λ f. count f.bytes.now) result ≡ header bytes.now }
        ensures same { IfOk result (λ f. f.bytes.now ≡ bytes.now) }
    {
        let [m1, m0, _, _, records @ ..] = bytes else {
            return Err(LoadRefusal::Size);
        };
        let count = usize::from(u16::from_be_bytes([*m1, *m0]));
        if !(1..=MOST_ITEMS).contains(&count) || records.len() != RECORD_BYTES * count {
            return Err(LoadRefusal::Size);
        }
        Ok(JobFile { bytes })
    }

    // The link to the first record on the chain.
    pub(crate) fn first(&self) -> Option<u16>
        ensures { result ≡ link (first self.now.bytes.now) }
    {
        link(self.bytes[2], self.bytes[3])
    }

    // Record `x`; records are indexed from 1.
    pub(crate) fn record(&self, x: u16) -> Option<[u8; RECORD_BYTES]>
        ensures { result ≡ record_at self.now.bytes.now x }
    {
        let (records, _) = self.bytes[HEADER_BYTES..].as_chunks();
        item(records, x)
    }

    // The node in record `x`, where its content is right.
    pub(crate) fn node(&self, x: u16) -> Option<Node>
        requires { Index (count self.now.bytes.now) x }
        ensures { result ≡ node_at self.now.bytes.now (start x) }
    {
        decode(&self.record(x)?)
    }
}
