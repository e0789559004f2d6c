// The statements of a body.
ghost use Rattle.std.specs.Prelude.{◌≡◌, [], IfOk};
ghost use Rattle.small_module.specs.SmallModule.{with_count, body_of};

use crate::statements::stmt_of;
use py_base::{OutOfMemory, Place, Text};
use py_syntax::Stmt;
use raw_syntax::RawStmt;
use sqlite_items::Items;
use std::alloc::Global;

/// The statements of a body, with the number of its locals.
#[tactic(auto, using(crate::proofs::Bodies::built_statement, crate::proofs::Bodies::unbuilt_statement, crate::proofs::Bodies::late_statement))]
pub fn body_of(
    alloc: Global,
    body: &[RawStmt],
) -> Result<Result<(Items<Stmt>, usize), Place>, OutOfMemory>
    ensures { IfOk result (λ r. r ≡ with_count (body_of [] [] body.now)) }
{
    let mut names: Vec<Text> = Vec::new(alloc);
    let mut statements: Vec<Stmt> = Vec::new(alloc);
    'statements: for s in body {
        if 60 <= statements.len() {
            return Ok(Err(s.place));
        }
        match stmt_of(alloc, s, &mut names)? {
            Ok(statement) => statements.push(statement)?,
            Err(place) => return Ok(Err(place)),
        }
    }
    Ok(Ok((Items::from_vec(statements), names.len())))
}
