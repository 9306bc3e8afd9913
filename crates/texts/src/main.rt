// Reads each line of standard input as a text, and prints what it reads as: the formula's numbers, or the refusal.
// In a line \n, \r, \t and \\ stand for themselves, \xHH is a byte, and {COUNT|TEXT} is TEXT so many times.
#![tactic(auto)]

mod escapes;

use escapes::decode;
use reader::read;
use std::alloc::{AllocError, Global};
use std::io::{BufRead, BufReader};

// What a text reads as, in one line.
fn outcome(heap: Global, text: &[u8]) -> Result<String, AllocError> {
    match read(text) {
        Ok(formula) => {
            let variables = formula.variables();
            let clauses = formula.clauses();
            let bound = formula.bound_variables();
            let levels = formula.levels();
            format!(in heap; "reads: n {variables}, k {clauses}, q {bound}, L {levels}")
        }
        Err(fault) => {
            let number = fault.number();
            let offset = fault.offset();
            let layer = fault.layer();
            format!(in heap; "refused {number} at {offset} by {layer}")
        }
    }
}

fn run(rt: &HostRuntime) -> anyhow::Result<()> {
    let heap = rt.alloc();
    for line in BufReader::new(heap, rt.stdin())?.lines(heap) {
        let line = line?;
        let text = decode(heap, line.as_bytes())?;
        let outcome = outcome(heap, text.as_slice())?;
        println!(rt; "{line}  ->  {outcome}")?;
    }
    Ok(())
}

fn main(rt: HostRuntime) -> anyhow::Result<()> {
    run(&rt)
}
