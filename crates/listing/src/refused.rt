// Why a text is no formula, with the number of the fault and its place as people count.
use reader::{TextFault, position_of};
use std::fmt;

#[derive(Clone, Copy)]
pub struct Refused<'a> {
    pub text: &'a [u8],
    pub fault: TextFault,
}

impl fmt::Display for Refused<'_> {
    fn fmt<W: fmt::Write>(&self, f: &mut fmt::Formatter<W>) -> fmt::Result {
        let fault = self.fault;
        let number = fault.number();
        let offset = fault.offset();
        let place = position_of(self.text, offset);
        let line = place.line;
        let column = place.column;
        write!(
            f,
            "refused {number}: {fault}\nfound at line {line}, column {column} (byte {offset} of the text)"
        )
    }
}
