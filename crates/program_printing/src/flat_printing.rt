// Flat programs as texts: the types of the scratch cells, with a mark where they are subranges, and the statements.
use crate::expr_printing::print_expr;
use flat_core::{Flat, FlatArm, FlatStmt};
use std::alloc::{AllocError, Global};

/// The printed list of a flat program.
pub fn print_flat(alloc: Global, flat: &Flat) -> Result<String, AllocError> {
    let mut text = String::new(alloc);
    for scratch in &flat.scratch {
        text.push_str(scratch.kind.name())?;
        text.push_str(if scratch.is_subrange { "! " } else { " " })?;
    }
    text.push_str("|")?;
    print_all(&flat.body, alloc, &mut text)?;
    Ok(text)
}

#[cycle(print)]
fn print_all(list: &[FlatStmt], alloc: Global, text: &mut String) -> Result<(), AllocError> {
    for stmt in list {
        text.push_str(" ")?;
        print_stmt(stmt, alloc, text)?;
    }
    Ok(())
}

#[cycle(print)]
fn print_stmt(stmt: &FlatStmt, alloc: Global, text: &mut String) -> Result<(), AllocError> {
    match stmt {
        FlatStmt::Set(place, expr) => {
            text.push_str(format!(in alloc; "#{place} := ")?.as_str())?;
            print_expr(expr, &[], alloc, text)?;
            text.push_str(";")?;
        }
        FlatStmt::If(arms, rest) => {
            print_arms(arms, alloc, text)?;
            print_all(rest, alloc, text)?;
            for _ in arms {
                text.push_str(" }")?;
            }
        }
    }
    Ok(())
}

// An arm stands in the rest of the one before it. The statements that come before a condition stand before its IF.
#[cycle(print)]
fn print_arms(arms: &[FlatArm], alloc: Global, text: &mut String) -> Result<(), AllocError> {
    for (number, arm) in arms.iter().enumerate() {
        if number > 0 {
            text.push_str(" ")?;
        }
        for stmt in &arm.before {
            print_stmt(stmt, alloc, text)?;
            text.push_str(" ")?;
        }
        text.push_str("If ")?;
        print_expr(&arm.condition, &[], alloc, text)?;
        text.push_str(" {")?;
        print_all(&arm.body, alloc, text)?;
        text.push_str(" } {")?;
    }
    Ok(())
}
