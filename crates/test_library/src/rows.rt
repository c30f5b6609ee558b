//! Tables as raw texts. Their rows are lines `INPUT => OUTPUT`, under lines `# NAME`.
ghost use Rattle.std.specs.Prelude.{◌≡◌, ◌≢◌, ◌++◌, ℕ, List, [], codes, IfOk, MatchResult, string_bytes};
ghost use Rattle.std.specs.List.{repeat};

use std::alloc::{AllocError, Global};
use std::test::Fail;

/// A row of a table, and the name over it.
#[derive(Clone, Copy)]
pub struct Row<'a> {
    pub name: &'a str,
    pub input: &'a str,
    pub output: &'a str,
}

/// The rows of a table, of which there are some.
pub fn table_rows(alloc: Global, table: &str) -> Result<Vec<Row<'_>>, Fail>
    ensures { IfOk result (λ rows. rows.items ≢ []) }
{
    let mut rows = Vec::new(alloc);
    for section in table.split("\n# ") {
        if let Some((name, lines)) = section.split_once('\n') {
            push_rows(&mut rows, name, lines)?;
        }
    }
    if rows.is_empty() {
        return Err("a table without rows".into());
    }
    Ok(rows)
}

fn push_rows<'a>(rows: &mut Vec<Row<'a>>, name: &'a str, lines: &'a str) -> Result<(), Fail> {
    for line in lines.lines() {
        if !line.is_empty() {
            let (input, output) = split_row(line)?;
            rows.push(Row {
                name,
                input,
                output,
            })?;
        }
    }
    Ok(())
}

/// The input and the output of a row; an error where it has no arrow.
pub fn split_row(row: &str) -> Result<(&str, &str), Fail>
    ensures { MatchResult result
        (λ parts. row.now ≡ parts.0.now ++ (codes " => " ++ parts.1.now))
        (λ _. (input output : List ℕ) → row.now ≢ input ++ (codes " => " ++ output)) }
{
    Ok(row.split_once(" => ").ok_or("a row without an output")?)
}

/// A text that is `depth` arrays deep.
pub fn nested(alloc: Global, depth: u32) -> Result<String, AllocError>
    ensures { IfOk result
        (λ text. string_bytes text ≡ repeat depth (codes "[") ++ repeat depth (codes "]")) }
{
    let mut text = "[".repeat(alloc, depth as usize)?;
    text.push_str(&"]".repeat(alloc, depth as usize)?)?;
    Ok(text)
}
