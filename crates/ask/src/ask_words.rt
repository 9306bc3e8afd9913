// The numbers of a line.
use crate::wrong::Wrong;
use std::alloc::Global;

pub(crate) fn numbers(heap: Global, text: &str) -> Result<Vec<i32>, Wrong> {
    text.split_whitespace()
        .map(|word| word.parse::<i32>().map_err(|_| Wrong::NoNumber))
        .try_collect(heap)
}
