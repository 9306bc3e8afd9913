// The values of a level's variables: as an engine gives them, and as an entry lists them.
ghost use Rattle.std.specs.Prelude.{◌≡◌, ◌+◌, ◌<◌, ◌≤◌, ◌++◌, length, pos, int_lt};
ghost use Rattle.arrayvec.specs.ArrayVec.{array_vec_len};
ghost use Rattle.layout.specs.Viewed.{values_in};
ghost use Rattle.rules.specs.Values.{literal_of};
ghost use Rattle.rules.specs.Changes.{flags_for, values_said};

use arrayvec::ArrayVec;
use layout::Level;

// The literal of a variable that has this value.
fn literal_of(variable: usize, value: bool) -> i32
    requires { (0 < variable) × (variable ≤ 256) }
    ensures { result ≡ literal_of variable value }
{
    engine::signed(variable - 1, value)
}

// Puts the values that a level keeps behind the numbers of a record.
pub(crate) fn put_values(variables: usize, level: &Level, numbers: &mut ArrayVec<i32, 768>)
    requires { (variables ≤ 256) × (array_vec_len numbers.old ≤ 512) }
    ensures numbers { numbers.new.items ≡ numbers.old.items ++ values_in variables level.now }
    ensures few { array_vec_len numbers.new ≤ array_vec_len numbers.old + variables }
{
    // by number: a literal names its variable
    for v in 1..variables + 1 {
        if !level.variables[v] {
            continue;
        }
        numbers.push(literal_of(v, level.values[v]));
    }
}

// Whether a signed value says true.
fn is_positive(value: i32) -> bool
    ensures { result ≡ int_lt (pos 0) value }
{
    value > 0
}

// The values that an engine's words give the flagged variables of 1 to n, by their numbers.
pub(crate) fn read_level_values(variables: usize, flags: &[bool; 257], words: &[i32]) -> [bool; 257]
    requires { (variables ≤ 256) × (variables ≤ length words.now) }
    ensures { result ≡ flags_for (values_said variables flags.now words.now) }
{
    let mut values = [false; 257];
    // by number: the word of the variable v is at v - 1
    for v in 1..variables + 1 {
        if !flags[v] {
            continue;
        }
        values[v] = is_positive(words[v - 1]);
    }
    values
}
