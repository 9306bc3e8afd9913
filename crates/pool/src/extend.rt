// A record more in front of a chain, directly behind the words in use.
ghost use Rattle.std.specs.Prelude.{◌+◌, ◌<◌};
ghost use Rattle.pool.specs.Append.{Appended, Grows, Keeps};

// The head of a chain after a record was appended, and the words then in use.
#[derive(Clone, Copy)]
pub struct Place {
    pub head: usize,
    pub used: usize,
}

// Indices and counts are words, so that none may pass this.
const LARGEST: usize = i32::MAX as usize;

// Writes the record of the numbers, followed by the chain at head; None where there is no room.
pub fn append(pool: &mut [i32], used: usize, head: usize, numbers: &[i32]) -> Option<Place>
    ensures written { Appended pool.old used head numbers.now pool.new result }
    ensures grows { Grows pool.old used head numbers.now pool.new result }
    ensures keeps { Keeps pool.old used pool.new result }
{
    let at = used.max(1);
    let count = numbers.len();
    let behind = at.saturating_add(2).saturating_add(count);
    if head >= at || behind > pool.len().min(LARGEST) {
        return None;
    }
    pool[at] = head as i32;
    pool[at + 1] = count as i32;
    pool[at + 2..behind].copy_from_slice(numbers);
    Some(Place {
        head: at,
        used: behind,
    })
}
