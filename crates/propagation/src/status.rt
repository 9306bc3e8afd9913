// What a record comes to under the values of some of the signals.
ghost use Rattle.std.specs.Prelude.{◌≡◌, ◌-◌, ◌<◌, length, unsigned_abs};
ghost use Rattle.std.specs.List.{AllByRecursion};
ghost use Rattle.pool.specs.Records.{Literal};
ghost use Rattle.propagation.specs.Rows.{word_of};
ghost use Rattle.propagation.specs.Steps.{Weighed};

// One number is true, all are false, all but one open one are false, or none of these.
#[derive(Clone, Copy, PartialEq, Eq)]
pub enum Status {
    Holds,
    Fails,
    Forces(i32),
    Open,
}

// Where a number's signal has its word.
pub fn place_of(x: i32) -> usize
    requires { 0 < unsigned_abs x }
    ensures { result ≡ unsigned_abs x - 1 }
{
    x.unsigned_abs() as usize - 1
}

// The word of a number's signal.
pub fn value_of(values: &[i32], x: i32) -> i32
    requires { Literal (length values.now) x }
    ensures { result ≡ word_of values.now x }
{
    values[place_of(x)]
}

// Whether a record holds, fails, or hangs on one number.
pub fn weigh(values: &[i32], numbers: &[i32]) -> Status
    requires { AllByRecursion (Literal (length values.now)) numbers.now }
    ensures { Weighed values.now numbers.now result }
{
    let mut open = None;
    for x in numbers {
        let value = value_of(values, *x);
        if value == *x {
            return Status::Holds;
        }
        if value == 0 {
            if open.is_some() {
                return Status::Open;
            }
            open = Some(*x);
        }
    }
    open.map_or(Status::Fails, Status::Forces)
}
