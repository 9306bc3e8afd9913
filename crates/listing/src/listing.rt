// A formula in words that a person reads: how many variables, levels and clauses it has, and what they are.
use formula::{Formula, Side};
use std::fmt;

// The clauses of a formula with more than `most` are not listed: its text has them in the same order.
#[derive(Clone, Copy)]
pub struct Listing<'a> {
    pub formula: &'a Formula,
    pub most: usize,
}

// Whose a level is.
fn owner(side: Side) -> &'static str {
    match side {
        Side::Ours => "ours",
        Side::Device => "the device's",
    }
}

// The levels and the variables that each binds, a line for each.
fn write_levels<W: fmt::Write>(f: &mut fmt::Formatter<W>, formula: &Formula) -> fmt::Result {
    for level in 1..=formula.levels() {
        if let Some(side) = formula.side(level) {
            let side = owner(side);
            write!(f, "\nlevel {level}, {side}:")?;
        }
        write_variables(f, formula, level)?;
    }
    Ok(())
}

fn write_variables<W: fmt::Write>(
    f: &mut fmt::Formatter<W>,
    formula: &Formula,
    level: usize,
) -> fmt::Result {
    for variable in (1..=formula.variables()).filter(|v| formula.binds(level, *v)) {
        write!(f, " {variable}")?;
    }
    Ok(())
}

fn write_clause<W: fmt::Write>(
    f: &mut fmt::Formatter<W>,
    number: usize,
    literals: &[i32],
) -> fmt::Result {
    write!(f, "\nclause {number}:")?;
    if literals.is_empty() {
        write!(f, " (empty)")?;
    }
    for literal in literals {
        write!(f, " {literal}")?;
    }
    Ok(())
}

fn write_clauses<W: fmt::Write>(f: &mut fmt::Formatter<W>, formula: &Formula) -> fmt::Result {
    for number in 1..=formula.clauses() {
        if let Some(literals) = formula.clause(number) {
            write_clause(f, number, literals)?;
        }
    }
    Ok(())
}

impl fmt::Display for Listing<'_> {
    fn fmt<W: fmt::Write>(&self, f: &mut fmt::Formatter<W>) -> fmt::Result {
        let formula = self.formula;
        let variables = formula.variables();
        let bound = formula.bound_variables();
        let levels = formula.levels();
        let clauses = formula.clauses();
        write!(
            f,
            "{variables} variables, {bound} of them bound; {levels} levels; {clauses} clauses"
        )?;
        write_levels(f, formula)?;
        if clauses > self.most {
            return write!(
                f,
                "\nclauses 1 to {clauses}: as they stand in the text, in order"
            );
        }
        write_clauses(f, formula)
    }
}
