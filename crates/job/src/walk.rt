// The pass over the chain of records.
ghost use Rattle.std.specs.Prelude.{◌≡◌, true, false, if◌then◌else◌, None, is_some, slice_index_or, slice_set};
ghost use Rattle.layout.specs.Chain.{chain};
ghost use Rattle.layout.specs.Layout.{count};
ghost use Rattle.layout.specs.Steps.{map_ok};
ghost use Rattle.job.specs.Files.{record_at};

use crate::file::JobFile;
use crate::record::{RECORD_BYTES, next};
use crate::row::MOST_ITEMS;
use arrayvec::ArrayVec;
use layout::LoadRefusal;

// Record `x`, which is marked now, where the file has it and it was not reached before.
fn reach(
    file: &JobFile<'_>,
    reached: &mut [bool; MOST_ITEMS + 1],
    x: u16,
) -> Option<[u8; RECORD_BYTES]>
    ensures value { result ≡ (if slice_index_or reached.old x false then None else record_at file.now.bytes.now x) }
    ensures marks { reached.new ≡ (if is_some result then slice_set reached.old x true else reached.old) }
{
    let record = file.record(x)?;
    let at = usize::from(x);
    if reached[at] {
        return None;
    }
    reached[at] = true;
    Some(record)
}

// The indices of the records on the chain, in order, where every link leads to a record that was not reached before.
pub(crate) fn follow(file: &JobFile<'_>) -> Result<ArrayVec<u16, MOST_ITEMS>, LoadRefusal>
    ensures { map_ok (λ order. order.items) result ≡ chain file.now.bytes.now (count file.now.bytes.now) }
{
    let mut order = ArrayVec::new();
    let mut reached = [false; MOST_ITEMS + 1];
    let mut from = 0;
    let mut link = file.first();
    if link.is_none() {
        return Err(LoadRefusal::Link(0));
    }
    while let Some(x) = link {
        let record = reach(file, &mut reached, x).ok_or(LoadRefusal::Link(from))?;
        order.push(x);
        from = x;
        link = next(&record);
    }
    Ok(order)
}
