// Reads a formula on standard input and prints what it says, or why it is none.
#![tactic(auto)]

use formula::MAX_CLAUSES;
use listing::{Listing, Refused};
use reader::read;
use std::io::Read;
use std::process::ExitCode;

// The process ends with status 1 where the text is refused.
fn main(rt: HostRuntime) -> anyhow::Result<ExitCode> {
    let mut text = Vec::new(rt.alloc());
    rt.stdin().read_to_end(&mut text)?;
    let text = text.as_slice();
    match read(text) {
        Ok(formula) => {
            rt.println(Listing {
                formula: &formula,
                most: MAX_CLAUSES,
            })?;
            Ok(ExitCode::SUCCESS)
        }
        Err(fault) => {
            rt.eprintln(Refused { text, fault })?;
            Ok(ExitCode::FAILURE)
        }
    }
}
