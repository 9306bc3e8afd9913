// Why a formula that is being built does not take what it is given.
#[derive(Clone, Copy, PartialEq, Eq, Debug)]
pub enum LevelFault {
    // no level of this side may follow, or there are 32
    MayNotFollow,
}

#[derive(Clone, Copy, PartialEq, Eq, Debug)]
pub enum BindFault {
    // no declared variable, or there is no level yet to bind it at
    NoVariable,
    BoundTwice,
}

#[derive(Clone, Copy, PartialEq, Eq, Debug)]
pub enum LiteralFault {
    OutOfRange,
    Unbound,
    TooMany,
}

#[derive(Clone, Copy, PartialEq, Eq, Debug)]
pub enum ClauseFault {
    // there are 512
    TooMany,
}
